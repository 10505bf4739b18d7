//! The demo: a cell, a recipe and its certificate, which are built into the program.
ghost use Rattle.std.specs.Prelude.{◌≡◌, option_map};
ghost use Rattle.batch_verdicts.specs.DemoDocuments.{demo_text};

use crate::documents::Documents;
use crate::refusal::Halt;
use std::alloc::Global;

pub(crate) const CELL_PATH: &str = "demo/cell.toml";

pub(crate) const CERTIFICATE_PATH: &str = "demo/certificate.txt";

pub(crate) const RECIPE_PATH: &str = "demo/recipe.toml";

const CELL: &str = r#"cell = "DEMO"
[[unit]]
name = "R1"
[[unit]]
name = "R2"
[[module]]
name = "M1"
unit = "R1"
phases = ["ADD", "HEAT", "DRAIN"]
[[module]]
name = "M2"
unit = "R2"
phases = ["ADD", "HEAT", "DRAIN"]
[[shared]]
name = "HDR"
capacity = 1
[[shared]]
name = "STEAM"
capacity = 2
"#;

const CERTIFICATE: &str = "rank HDR 1
rank R1 1
rank R2 1
rank STEAM 1
";

const RECIPE: &str = r#"recipe = "A"
version = "1"
basis = 1000
[procedure]
chart = "MAKE"
[[unit_procedure]]
name = "MAKE"
unit = "R1"
chart = "CHARGE"
[[operation]]
name = "CHARGE"
chart = "ADD"
[[phase]]
name = "ADD"
"#;

/// The documents of the demo.
#[derive(Drop)]
pub(crate) struct Demo;

impl Documents for Demo {
    ghost gives = { λ _ path reading. reading ≡ demo_text path };

    fn read(&self, alloc: Global, path: &str, _limit: usize) -> Result<Vec<u8>, Halt> {
        match text_of(path) {
            Some(text) => Ok(text.as_bytes().to_vec(alloc)?),
            None => Err(Halt::Unread(String::from_str(alloc, path)?)),
        }
    }
}

fn text_of(path: &str) -> Option<&'static str>
    ensures { option_map (λ text. text.now) result ≡ demo_text path.now }
{
    if path == CELL_PATH {
        return Some(CELL);
    }
    if path == CERTIFICATE_PATH {
        return Some(CERTIFICATE);
    }
    if path == RECIPE_PATH {
        return Some(RECIPE);
    }
    None
}
