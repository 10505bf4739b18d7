//! Recipe documents.
ghost use Rattle.std.specs.Prelude.{◌≡◌, ◌≢◌, ◌<◌, true, Err, codes, length, IfOk, IfErr, IsErrOf, IsSome, IsUtf8};
ghost use Rattle.toml.specs.Parse.{parse_document};
ghost use Rattle.toml.specs.View.{table_view};
ghost use Rattle.batch_recipe.specs.TableNames.{AreNamesOf};
ghost use Rattle.batch_recipe.specs.declared.acts.Acts.{Acts};
ghost use Rattle.batch_recipe.specs.declared.header.Header.{Header};
ghost use Rattle.batch_recipe.specs.declared.recipe.Recipe.{Recipe};
ghost use Rattle.batch_recipe.specs.declared.scaling.TheConstants.{MAX_SIZE};
ghost use Rattle.batch_reader.specs.Entries.{HasName, HasNumber, HasTables};
ghost use Rattle.batch_reader.specs.Faults.{IsAmong, Tells, TellsAt, is_of_recipe};
ghost use Rattle.batch_reader.specs.FaultStands.{FaultStands, IsWrongAt};
ghost use Rattle.batch_reader.specs.TableFaults.{IsFaultOfTable, IsTableFault};
ghost use Rattle.batch_reader.specs.RecipeTables.{HasHeader, IsQuantityTable, IsOutputTable, IsRoleTable, IsUnitProcedureTable, IsOperationTable, IsPhaseTable};
ghost use Rattle.batch_reader.specs.RecipeDocument.{HasActs, IsRecipeTable, IsRecipeDocument};
ghost use Rattle.batch_reader.specs.SoundTables.{HasSoundTables, outline_fault};
ghost use Rattle.batch_reader.specs.declared.document.TheConstants.{MAX_DOCUMENT_LEN};
ghost use Rattle.batch_reader.specs.declared.fault.EntryFault.{EntryFault};
ghost use Rattle.batch_reader.specs.declared.fault.Spot.{Spot};
ghost use Rattle.batch_reader.specs.declared.fault.TableKind.{TableKind};

use crate::act_tables::procedure_at;
use crate::document::{document_fault, table_of};
use crate::entries::{name_at, number_at, optional_text_at, text_at};
use crate::fault::{DocFault, EntryFault, Spot, TableFault, TableKind};
use crate::keys::has_known_keys;
use crate::recipe_checks::check_recipe;
use crate::tables::tables_at;
use batch_recipe::{
    Act, Acts, Header, MAX_SIZE, MAX_TEXT_LEN, MAX_VERSION_LEN, OutlineFault, Quantity, Recipe,
    RecipeNames, RecipeParts, Role,
};
use batch_text::Name;
use std::alloc::Global;
use toml::Table;

const TOP: Spot = Spot {
    kind: TableKind::Recipe,
    entry: 0,
};

/// Reads a recipe document. The needs, the units, the classes and the phases that it names are looked up in no cell. A document
/// that is too long is refused as `Entry` at its top, before it is parsed. Any other is refused as
/// - `NotToml`, if its bytes are no TOML in UTF-8;
/// - `Entry`, if they give no recipe;
/// - `Memory`, if memory is refused on the way.
///
/// The first fault is reported, in this order:
/// - of the top's entries;
/// - of each table by itself: inputs, parameters, outputs, roles, the procedure, unit procedures, operations, phase steps;
/// - of how many there are;
/// - of the names of values and acts;
/// - of the labels and values that acts name;
/// - of the names of roles;
/// - of the roles that unit procedures name;
/// - of the outputs that phase steps report;
/// - of the unit procedures that acts reserve;
/// - of the size of the expanded tree.
pub fn read_recipe(alloc: Global, bytes: &[u8]) -> Result<Recipe, DocFault>
    // claim: recipe read
    ensures ok { IfOk result (IsRecipeDocument bytes.now) }
    // claim: recipe not TOML
    ensures not_toml { IsErrOf result DocFault.NotToml → ¬ (IsUtf8 bytes.now × IsSome (parse_document bytes.now)) }
    // claim: no recipe
    ensures refused { IfErr result (λ fault. fault ≢ DocFault.Memory
        → (recipe : Recipe) → ¬ (IsRecipeDocument bytes.now recipe)) }
    // claim: long recipe
    ensures long { MAX_DOCUMENT_LEN < length bytes.now
        → result ≡ Err (DocFault.Entry (record { kind = TableKind.Recipe; entry = 0 }) (EntryFault.OutOfLimit None)) }
    // claim: table of a recipe
    ensures told { (spot : Spot) (wrong : EntryFault) → IsErrOf result (DocFault.Entry spot wrong) → is_of_recipe spot.kind ≡ true }
    // claim: fault of a recipe; first of its kind
    ensures stands { (spot : Spot) (wrong : EntryFault) → IsErrOf result (DocFault.Entry spot wrong) → FaultStands bytes.now spot wrong }
{
    let table = table_of(alloc, bytes, TOP)?;
    match recipe_from_table(alloc, &table) {
        Ok(recipe) => Ok(recipe),
        Err(fault) => Err(document_fault(fault)),
    }
}

fn recipe_from_table(alloc: Global, table: &Table) -> Result<Recipe, TableFault>
    ensures ok { IfOk result (IsRecipeTable (table_view table.now)) }
    ensures refused { IfErr result (λ fault. fault ≢ TableFault.Memory
        → (recipe : Recipe) → ¬ (IsRecipeTable (table_view table.now) recipe)) }
    ensures told { IfErr result (IsAmong is_of_recipe) }
    ensures stands { IfErr result (Tells (IsWrongAt (table_view table.now))) }
{
    if !has_known_keys(table, TableKind::Recipe) {
        return Err(TableFault::Entry(TOP, EntryFault::UnknownKey));
    }
    let top = top_at(alloc, table)?;
    let parts = parts_at(alloc, table, top.name)?;
    let parts = RecipeParts {
        header: top.header,
        basis: top.basis,
        inputs: parts.values.inputs,
        parameters: parts.values.parameters,
        outputs: parts.values.outputs,
        roles: parts.roles,
        acts: parts.acts,
        names: parts.names,
    };
    match Recipe::new(alloc, parts) {
        Ok(made) => Ok(made),
        Err(fault) => Err(outline_fault(fault)),
    }
}

/// The fault of a document whose recipe has no outline. Too large an expanded tree is reported at the procedure.
fn outline_fault(fault: OutlineFault) -> TableFault
    ensures { result ≡ outline_fault fault }
{
    match fault {
        OutlineFault::TooMany => {
            let spot = Spot {
                kind: TableKind::Procedure,
                entry: 0,
            };
            TableFault::Entry(spot, EntryFault::OutOfLimit(None))
        }
        OutlineFault::Memory => TableFault::Memory,
    }
}

/// The name, the header and the basis, of the top of a recipe.
#[derive(Drop)]
struct Top {
    name: Name,
    header: Header,
    basis: u64,
}

/// Reads the entries of the top, but for its tables.
fn top_at(alloc: Global, table: &Table) -> Result<Top, TableFault>
    ensures name { IfOk result (λ top. HasName (codes "recipe") (table_view table.now) top.name) }
    ensures header { IfOk result (λ top. HasHeader (table_view table.now) top.header) }
    ensures basis { IfOk result (λ top. HasNumber (codes "basis") (table_view table.now) 1 MAX_SIZE top.basis) }
    ensures refused { IfErr result (λ fault. fault ≢ TableFault.Memory
        → (recipe : Recipe) → ¬ (IsRecipeTable (table_view table.now) recipe)) }
    ensures told { IfErr result (TellsAt TOP (IsTableFault TableKind.Recipe (table_view table.now))) }
{
    let name = name_at(alloc, table, "recipe", TOP)?;
    let header = header_at(alloc, table)?;
    let basis = number_at(table, "basis", 1, MAX_SIZE, TOP)?;
    Ok(Top {
        name,
        header,
        basis,
    })
}

/// The values, the roles and the acts of a recipe, as its tables declare them, and the names of the values and acts.
#[derive(Drop)]
struct Parts {
    values: ValueTables,
    roles: Vec<Role>,
    acts: Acts,
    names: RecipeNames,
}

/// Reads the tables of a recipe, and checks their counts and names. The procedure gets the name.
fn parts_at(alloc: Global, table: &Table, name: Name) -> Result<Parts, TableFault>
    requires { HasName (codes "recipe") (table_view table.now) name }
    ensures inputs { IfOk result (λ parts. HasTables IsQuantityTable (codes "input") (table_view table.now) parts.values.inputs.items) }
    ensures parameters { IfOk result (λ parts. HasTables IsQuantityTable (codes "parameter") (table_view table.now) parts.values.parameters.items) }
    ensures outputs { IfOk result (λ parts. HasTables IsOutputTable (codes "output") (table_view table.now) parts.values.outputs.items) }
    ensures roles { IfOk result (λ parts. HasTables IsRoleTable (codes "role") (table_view table.now) parts.roles.items) }
    ensures acts { IfOk result (λ parts. HasActs (table_view table.now) parts.acts) }
    ensures names { IfOk result (λ parts. AreNamesOf parts.names.acts parts.acts) }
    ensures sound { IfOk result (λ parts. HasSoundTables parts.values.inputs.items parts.values.parameters.items parts.values.outputs.items parts.roles.items parts.acts) }
    ensures refused { IfErr result (λ fault. fault ≢ TableFault.Memory
        → (recipe : Recipe) → ¬ (IsRecipeTable (table_view table.now) recipe)) }
    ensures told { IfErr result (IsAmong is_of_recipe) }
    ensures stands { IfErr result (Tells (IsWrongAt (table_view table.now))) }
{
    let values = values_at(alloc, table)?;
    let roles = tables_at::<Role>(alloc, table, "role", TableKind::Role)?;
    let acts = acts_at(alloc, table, name)?;
    let names = check_recipe(
        alloc,
        &values.inputs,
        &values.parameters,
        &values.outputs,
        &roles,
        &acts,
    )?;
    Ok(Parts {
        values,
        roles,
        acts,
        names,
    })
}

/// The inputs, parameters and outputs of a recipe.
#[derive(Drop)]
struct ValueTables {
    inputs: Vec<Quantity>,
    parameters: Vec<Quantity>,
    outputs: Vec<Name>,
}

/// The inputs, parameters and outputs, each as its table says.
fn values_at(alloc: Global, table: &Table) -> Result<ValueTables, TableFault>
    ensures inputs { IfOk result (λ values. HasTables IsQuantityTable (codes "input") (table_view table.now) values.inputs.items) }
    ensures parameters { IfOk result (λ values. HasTables IsQuantityTable (codes "parameter") (table_view table.now) values.parameters.items) }
    ensures outputs { IfOk result (λ values. HasTables IsOutputTable (codes "output") (table_view table.now) values.outputs.items) }
    ensures refused { IfErr result (λ fault. fault ≢ TableFault.Memory
        → (recipe : Recipe) → ¬ (IsRecipeTable (table_view table.now) recipe)) }
    ensures told { IfErr result (IsAmong is_of_recipe) }
    ensures stands { IfErr result (Tells (λ spot. IsFaultOfTable (table_view table.now) spot.kind spot.entry)) }
{
    let inputs = tables_at::<Quantity>(alloc, table, "input", TableKind::Input)?;
    let parameters = tables_at::<Quantity>(alloc, table, "parameter", TableKind::Parameter)?;
    let outputs = tables_at::<Name>(alloc, table, "output", TableKind::Output)?;
    Ok(ValueTables {
        inputs,
        parameters,
        outputs,
    })
}

/// Reads the header: the version, the product, the author and the info of the recipe.
fn header_at(alloc: Global, table: &Table) -> Result<Header, TableFault>
    ensures ok { IfOk result (HasHeader (table_view table.now)) }
    ensures refused { IfErr result (λ fault. fault ≢ TableFault.Memory
        → (header : Header) → ¬ (HasHeader (table_view table.now) header)) }
    ensures told { IfErr result (TellsAt TOP (IsTableFault TableKind.Recipe (table_view table.now))) }
{
    let version = text_at(alloc, table, "version", MAX_VERSION_LEN, TOP)?;
    let product = optional_text_at(alloc, table, "product", MAX_TEXT_LEN, TOP)?;
    let author = optional_text_at(alloc, table, "author", MAX_TEXT_LEN, TOP)?;
    let info = optional_text_at(alloc, table, "info", MAX_TEXT_LEN, TOP)?;
    Ok(Header {
        version,
        product,
        author,
        info,
    })
}

/// The acts, each as its table says. The procedure gets the recipe's name.
fn acts_at(alloc: Global, table: &Table, name: Name) -> Result<Acts, TableFault>
    requires { HasName (codes "recipe") (table_view table.now) name }
    ensures ok { IfOk result (HasActs (table_view table.now)) }
    ensures refused { IfErr result (λ fault. fault ≢ TableFault.Memory
        → (acts : Acts) → ¬ (HasActs (table_view table.now) acts)) }
    ensures told { IfErr result (IsAmong is_of_recipe) }
    ensures stands { IfErr result (Tells (λ spot. IsFaultOfTable (table_view table.now) spot.kind spot.entry)) }
{
    let procedure = procedure_at(alloc, table, name)?;
    let ActTables {
        unit_procedures,
        operations,
        phases,
    } = act_tables_at(alloc, table)?;
    Ok(Acts {
        procedure,
        unit_procedures,
        operations,
        phases,
    })
}

/// The acts below the procedure.
#[derive(Drop)]
struct ActTables {
    unit_procedures: Vec<Act>,
    operations: Vec<Act>,
    phases: Vec<Act>,
}

/// The acts below the procedure, each as its table says.
fn act_tables_at(alloc: Global, table: &Table) -> Result<ActTables, TableFault>
    ensures unit_procedures { IfOk result (λ acts. HasTables IsUnitProcedureTable (codes "unit_procedure") (table_view table.now) acts.unit_procedures.items) }
    ensures operations { IfOk result (λ acts. HasTables IsOperationTable (codes "operation") (table_view table.now) acts.operations.items) }
    ensures phases { IfOk result (λ acts. HasTables IsPhaseTable (codes "phase") (table_view table.now) acts.phases.items) }
    ensures refused { IfErr result (λ fault. fault ≢ TableFault.Memory
        → (acts : Acts) → ¬ (HasActs (table_view table.now) acts)) }
    ensures told { IfErr result (IsAmong is_of_recipe) }
    ensures stands { IfErr result (Tells (λ spot. IsFaultOfTable (table_view table.now) spot.kind spot.entry)) }
{
    let unit_procedures = tables_at::<Act>(
        alloc,
        table,
        "unit_procedure",
        TableKind::UnitProcedure,
    )?;
    let operations = tables_at::<Act>(alloc, table, "operation", TableKind::Operation)?;
    let phases = tables_at::<Act>(alloc, table, "phase", TableKind::Phase)?;
    Ok(ActTables {
        unit_procedures,
        operations,
        phases,
    })
}
