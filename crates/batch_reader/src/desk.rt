//! One desk.
ghost use Rattle.std.specs.Prelude.{◌≤◌};
ghost use Rattle.batch_reader.specs.declared.keys.TheConstants.{MAX_LAG};

use batch_text::Name;

/// How many lines may wait for a desk without a `lag`.
pub const USUAL_LAG: usize = 4_096;

/// A console or an equipment link: the paths of its input and its output, and the unit whose moves it is sent. A path may be that of a
/// named pipe, a terminal or a file. Only its length is tested before it is opened.
// claim: kept desks
#[derive(Drop)]
pub struct Desk {
    pub name: Name,
    /// The path that its lines are read from.
    pub input: Option<String>,
    /// The path that its answers and moves are written to.
    pub output: Option<String>,
    /// The unit whose starts and sends it is sent. None of a console, which is sent each move.
    pub unit: Option<Name>,
    /// Whether the input goes on when its writer leaves.
    pub stays: bool,
    /// How many lines may wait for it.
    pub lag: usize,
    ghost some_lines: { 1 ≤ lag },
    ghost few_lines: { lag ≤ MAX_LAG },
}
