//! Marks, added one by one.

use crate::looks::Look;
use crate::picture::{Mark, Route, Title};
use gathered::Gathered;
use std::alloc::{AllocError, Global};

/// That of a mark of which nothing is shown.
pub(crate) fn untitled<'a>() -> Title<'a> {
    shown(b"")
}

/// A line of the report alone.
pub(crate) fn shown<'a>(line: &'a [u8]) -> Title<'a> {
    Title { line, source: b"" }
}

/// The marks so far.
#[derive(Drop)]
pub(crate) struct Marks<'a> {
    alloc: Global,
    marks: Gathered<Mark<'a>>,
}

impl<'a> Marks<'a> {
    pub(crate) fn new(alloc: Global) -> Marks<'a> {
        Marks {
            alloc,
            marks: Gathered::new(alloc),
        }
    }

    /// Marks are missing, if this says so.
    pub(crate) fn miss(&mut self, is_missing: bool) {
        self.marks.full = self.marks.full | is_missing;
    }

    pub(crate) fn add_box(
        &mut self,
        place: (u64, u64),
        size: (u64, u64),
        look: Look,
        title: Title<'a>,
    ) {
        self.marks.add(Mark::Box {
            x: place.0,
            y: place.1,
            width: size.0,
            height: size.1,
            look,
            title,
        });
    }

    pub(crate) fn add_path(&mut self, way: Route, look: Look, title: Title<'a>) {
        self.marks.add(Mark::Path { way, look, title });
    }

    /// Adds a text, the second of these behind the first.
    pub(crate) fn add_text(
        &mut self,
        place: (u64, u64),
        look: Look,
        texts: (&[u8], &[u8]),
        title: Title<'a>,
    ) {
        match [texts.0, texts.1].concat(self.alloc) {
            Ok(text) => self.marks.add(Mark::Text {
                x: place.0,
                y: place.1,
                look,
                text,
                title,
            }),
            Err(_) => self.miss(true),
        }
    }

    /// The marks, if memory held all of them.
    pub(crate) fn whole(self) -> Result<Vec<Mark<'a>>, AllocError> {
        let Marks { marks, .. } = self;
        marks.whole()
    }
}
