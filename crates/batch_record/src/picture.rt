//! Pictures, and their text.
ghost use Rattle.std.specs.Prelude.{Some};
ghost use Rattle.std.specs.List.{flat_map};
ghost use Rattle.batch_record.specs.Pictures.{ground_text, svg_head, pattern_text, picture_text, shape_text};

use crate::shape::PictureShape;
use std::fmt;

/// A picture of so many points, in which a later shape covers an earlier one. Its text is SVG.
#[derive(Drop)]
pub struct Picture {
    pub width: u64,
    pub height: u64,
    pub shapes: Vec<PictureShape>,
}

impl fmt::Display for Picture {
    // claim: text of a picture
    ghost output = { λ picture. Some (picture_text picture) };

    fn fmt<W: fmt::Write>(&self, f: &mut fmt::Formatter<W>) -> fmt::Result {
        let (width, height) = (self.width, self.height);
        let (head, ground) = (Head { width, height }, Ground { width, height });
        let (pattern, shapes) = (Pattern, Shapes { of: &self.shapes });
        write!(f, "{head}{ground}{pattern}{shapes}</svg>\n")
    }
}

/// The beginning of a picture.
#[derive(Clone, Copy)]
struct Head {
    width: u64,
    height: u64,
}

impl fmt::Display for Head {
    ghost output = { λ head. Some (svg_head head.width head.height) };

    fn fmt<W: fmt::Write>(&self, f: &mut fmt::Formatter<W>) -> fmt::Result {
        let Head { width, height } = *self;
        write!(
            f,
            "<svg xmlns=\"http://www.w3.org/2000/svg\" viewBox=\"0 0 {width} {height}\" width=\"{width}\" height=\"{height}\" font-family=\"sans-serif\" font-size=\"12\">\n"
        )
    }
}

/// The white ground of a picture.
#[derive(Clone, Copy)]
struct Ground {
    width: u64,
    height: u64,
}

impl fmt::Display for Ground {
    ghost output = { λ ground. Some (ground_text ground.width ground.height) };

    fn fmt<W: fmt::Write>(&self, f: &mut fmt::Formatter<W>) -> fmt::Result {
        let Ground { width, height } = *self;
        write!(
            f,
            "<rect width=\"{width}\" height=\"{height}\" fill=\"white\"/>\n"
        )
    }
}

/// The white stripes over the bars of waiting batches.
#[derive(Clone, Copy)]
struct Pattern;

impl fmt::Display for Pattern {
    ghost output = { λ _. Some pattern_text };

    fn fmt<W: fmt::Write>(&self, f: &mut fmt::Formatter<W>) -> fmt::Result {
        f.write_str(
            "<pattern id=\"waits\" width=\"6\" height=\"6\" patternUnits=\"userSpaceOnUse\" patternTransform=\"rotate(45)\"><rect width=\"3\" height=\"6\" fill=\"white\"/></pattern>\n",
        )
    }
}

/// Shapes, one after the other.
#[derive(Clone, Copy)]
struct Shapes<'a> {
    of: &'a [PictureShape],
}

impl<'a> fmt::Display for Shapes<'a> {
    ghost output = { λ shapes. Some (flat_map shape_text shapes.of.now) };

    fn fmt<W: fmt::Write>(&self, f: &mut fmt::Formatter<W>) -> fmt::Result {
        for shape in self.of {
            write!(f, "{shape}")?;
        }
        Ok(())
    }
}
