//! The shapes of a picture.
ghost use Rattle.std.specs.Prelude.{◌≡◌, Some};
ghost use Rattle.batch_record.specs.Pictures.{anchor_word, area_text, bar_text, colour_text, claim_verb, frame_text, grid_text, hatching, label_text, shape_text, title_text};

use batch_text::Name;
use std::fmt;

/// A thin line between two points.
#[derive(Clone, Copy)]
pub struct Grid {
    pub left: u64,
    pub top: u64,
    pub right: u64,
    pub bottom: u64,
}

impl fmt::Display for Grid {
    // claim: text of a picture
    ghost output = { λ grid. Some (grid_text grid) };

    fn fmt<W: fmt::Write>(&self, f: &mut fmt::Formatter<W>) -> fmt::Result {
        let Grid {
            left,
            top,
            right,
            bottom,
        } = *self;
        write!(
            f,
            "<path d=\"M{left} {top}L{right} {bottom}\" stroke=\"#dddddd\"/>\n"
        )
    }
}

/// Which end of a text lies at its place.
#[derive(Clone, Copy)]
pub enum Anchor {
    Start,
    Middle,
    End,
}

impl fmt::Display for Anchor {
    // claim: text of a picture
    ghost output = { λ anchor. Some (anchor_word anchor) };

    fn fmt<W: fmt::Write>(&self, f: &mut fmt::Formatter<W>) -> fmt::Result {
        f.write_str(match self {
            Anchor::Start => "start",
            Anchor::Middle => "middle",
            Anchor::End => "end",
        })
    }
}

/// A text on a line that begins at its place, is centred there, or ends there.
#[derive(Drop)]
pub struct Label {
    pub left: u64,
    pub base: u64,
    pub anchor: Anchor,
    pub text: String,
}

impl fmt::Display for Label {
    // claim: text of a picture
    ghost output = { λ label. Some (label_text label) };

    fn fmt<W: fmt::Write>(&self, f: &mut fmt::Formatter<W>) -> fmt::Result {
        let (left, base, anchor) = (self.left, self.base, self.anchor);
        let text = &self.text;
        write!(
            f,
            "<text x=\"{left}\" y=\"{base}\" text-anchor=\"{anchor}\">{text}</text>\n"
        )
    }
}

/// A bar of a batch, with the title that it shows if a pointer rests on it.
#[derive(Drop)]
pub struct Block {
    pub left: u64,
    pub top: u64,
    pub width: u64,
    pub batch: u64,
    /// The batch waits, and the bar is hatched.
    pub waits: bool,
    pub resource: Name,
    pub units: u32,
    /// The place of the act.
    pub place: String,
}

impl fmt::Display for Block {
    // claim: text of a picture
    ghost output = { λ block. Some (bar_text block) };

    fn fmt<W: fmt::Write>(&self, f: &mut fmt::Formatter<W>) -> fmt::Result {
        let (title, area, frame) = (Title { of: self }, Area { of: self }, Frame { of: self });
        write!(f, "{title}{area}{frame}")
    }
}

/// The title of a bar.
#[derive(Clone, Copy)]
struct Title<'a> {
    of: &'a Block,
}

impl<'a> fmt::Display for Title<'a> {
    ghost output = { λ title. Some (title_text title.of.now) };

    fn fmt<W: fmt::Write>(&self, f: &mut fmt::Formatter<W>) -> fmt::Result {
        let block = self.of;
        let (batch, does, units) = (block.batch, does(block.waits), block.units);
        let (resource, place) = (&block.resource, &block.place);
        write!(
            f,
            "<g><title>{batch} {does} {units} of {resource} at {place}</title>"
        )
    }
}

/// The colour of a bar.
#[derive(Clone, Copy)]
struct Area<'a> {
    of: &'a Block,
}

impl<'a> fmt::Display for Area<'a> {
    ghost output = { λ area. Some (area_text area.of.now) };

    fn fmt<W: fmt::Write>(&self, f: &mut fmt::Formatter<W>) -> fmt::Result {
        let block = self.of;
        let (left, top, width) = (block.left, block.top, block.width);
        let colour = colour(block.batch % 8);
        write!(
            f,
            "<rect x=\"{left}\" y=\"{top}\" width=\"{width}\" height=\"17\" fill=\"{colour}\"/>"
        )
    }
}

/// The frame of a bar, and the hatching over its colour.
#[derive(Clone, Copy)]
struct Frame<'a> {
    of: &'a Block,
}

impl<'a> fmt::Display for Frame<'a> {
    ghost output = { λ frame. Some (frame_text frame.of.now) };

    fn fmt<W: fmt::Write>(&self, f: &mut fmt::Formatter<W>) -> fmt::Result {
        let block = self.of;
        let (left, top, width) = (block.left, block.top, block.width);
        let hatching = hatching(block.waits);
        write!(
            f,
            "<rect x=\"{left}\" y=\"{top}\" width=\"{width}\" height=\"17\" fill=\"{hatching}\" stroke=\"#555555\"/></g>\n"
        )
    }
}

/// The verb of a batch that waits or holds.
fn does(waits: bool) -> &'static str
    ensures { result.now ≡ claim_verb waits }
{
    if waits { "waits for" } else { "holds" }
}

/// The hatching over the colour of a bar.
fn hatching(waits: bool) -> &'static str
    ensures { result.now ≡ hatching waits }
{
    if waits { "url(#waits)" } else { "none" }
}

/// The colour of a batch, by the remainder of its number.
fn colour(hue: u64) -> &'static str
    ensures { result.now ≡ colour_text hue }
{
    match hue {
        0 => "#d9d9a0",
        1 => "#8ecae6",
        2 => "#ffd166",
        3 => "#b7e4c7",
        4 => "#f4a6a6",
        5 => "#cdb4db",
        6 => "#e9a06a",
        _ => "#c8c8c8",
    }
}

/// A shape of a picture.
#[derive(Drop)]
pub enum PictureShape {
    Grid(Grid),
    Label(Label),
    Block(Block),
}

impl fmt::Display for PictureShape {
    // claim: text of a picture
    ghost output = { λ shape. Some (shape_text shape) };

    fn fmt<W: fmt::Write>(&self, f: &mut fmt::Formatter<W>) -> fmt::Result {
        match self {
            PictureShape::Grid(grid) => write!(f, "{grid}"),
            PictureShape::Label(label) => write!(f, "{label}"),
            PictureShape::Block(block) => write!(f, "{block}"),
        }
    }
}
