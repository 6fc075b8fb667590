// Where a file is wrong that cannot be read.
ghost use Rattle.std.specs.Prelude.{◌<◌};

use crate::refused;
use std::fmt::Display;
use std::io;

// A file that cannot be read, and the place of the first byte that is wrong, which is the end of one that ends early.
#[derive(Clone, Copy)]
pub(crate) struct Fault<'a> {
    pub name: &'a [u8],
    pub file: &'a [u8],
    pub place: usize,
}

// So many items of `size` bytes each, from `at` on: what an item is called, what comes after them, and what is wanted there.
#[derive(Clone, Copy)]
pub(crate) struct Block<'a> {
    pub at: usize,
    pub size: usize,
    pub many: usize,
    pub item: &'a str,
    pub after: &'a str,
    pub wanted_after: &'a str,
}

impl Fault<'_> {
    // The refusal: where it is, and what is wrong there, which is not said where the file ends at the place.
    fn told(
        &self,
        rt: &impl Print,
        at: impl Display + Drop,
        wrong: impl Display + Drop,
    ) -> io::Result<()> {
        let place = self.place;
        refused(rt, self.name)?;
        if place < self.file.len() {
            println!(rt; "is wrong at byte {place}, {at}{wrong}")
        } else {
            println!(rt; "ends early, after {place} bytes, {at}")
        }
    }

    pub(crate) fn in_lines(&self, rt: &impl Print) -> io::Result<()> {
        let line = survey::line_of(self.file, self.place);
        let wanted = match line {
            1 => "'# vtk DataFile Version 3.0'",
            2 => "a title of at most 255 bytes",
            3 => "'BINARY'",
            4 => "'DATASET UNSTRUCTURED_GRID'",
            _ => "'POINTS n double', n at most 65536,",
        };
        self.told(
            rt,
            format_args!("in line {line}"),
            format_args!(": {wanted} is wanted"),
        )
    }

    // The item that the place is in, or what comes after the block.
    pub(crate) fn in_block(
        &self,
        rt: &impl Print,
        block: Block<'_>,
        wrong: impl Display + Drop,
    ) -> io::Result<()>
        requires { 0 < block.size }
    {
        let item = self
            .place
            .checked_sub(block.at)
            .map(|past| past / block.size);
        match item {
            Some(i) if i < block.many => {
                self.told(rt, format_args!("in {} {i}", block.item), wrong)
            }
            _ => self.told(rt, block.after, block.wanted_after),
        }
    }

    // A cell is 3 and three names: of a wrong name it is said what it is.
    pub(crate) fn in_cells(
        &self,
        rt: &impl Print,
        n: usize,
        m: usize,
        at: usize,
    ) -> io::Result<()> {
        let block = Block {
            at,
            size: 16,
            many: m,
            item: "triangle",
            after: "in the line after the triangles",
            wanted_after: ": 'CELL_TYPES m' is wanted",
        };
        if self.place.saturating_sub(at) % 16 == 0 {
            return self.in_block(rt, block, ", which is not said to have 3 corners");
        }
        let named = survey::number_at(self.file, self.place);
        self.in_block(
            rt,
            block,
            format_args!(", which names point {named} of {n}"),
        )
    }
}
