//! What a picture is made of, as plain numbers.

use crate::px::{minus, plus};
use run_text::Reply;
use std::alloc::{AllocError, Global};
use svg_words::Fill;

/// How a shape looks.
#[derive(Clone, Copy, PartialEq, Eq)]
pub enum Look {
    Plain,
    Heading,
    Word,
    Small,
    Strong,
    Warning,
    Rule,
    /// An amount, across an area.
    Grid,
    TimeLine,
    Open,
    Challenged,
    Final,
    Arrow,
    ArrowUntold,
    /// What a call was, by its caller.
    Mark { by: u64, fill: Fill },
    /// The number in a mark.
    InMark(Fill),
    /// What a channel holds.
    Held(usize),
    /// What a person was paid.
    Paid(usize),
    Untold,
}

/// Which way a text runs.
#[derive(Clone, Copy)]
pub enum Run {
    Right,
    /// It ends at its place.
    Left,
    /// It has its middle at its place.
    Both,
    Rising,
    /// It rises and ends at its place.
    RisingTo,
}

/// Where a shape is. Places count from the upper left corner.
#[derive(Drop)]
pub enum Form {
    Line {
        x: u64,
        y: u64,
        to_x: u64,
        to_y: u64,
    },
    Bar {
        x: u64,
        y: u64,
        width: u64,
        height: u64,
    },
    Dot {
        x: u64,
        y: u64,
        radius: u64,
    },
    Area(Vec<(u64, u64)>),
    Text {
        x: u64,
        y: u64,
        run: Run,
        text: Vec<u8>,
    },
}

#[derive(Drop)]
pub struct Shape {
    pub form: Form,
    pub look: Look,
    /// What a viewer shows of it; nothing where it is empty.
    pub title: Vec<u8>,
}

/// A picture while it is made.
#[derive(Drop)]
pub struct Sketch {
    alloc: Global,
    pub shapes: Vec<Shape>,
}

/// Bytes after one another.
pub fn joined(alloc: Global, pieces: &[&[u8]]) -> Result<Vec<u8>, AllocError> {
    let mut all = Vec::new(alloc);
    for piece in pieces {
        all.extend_from_slice(piece)?;
    }
    Ok(all)
}

impl Sketch {
    pub fn new(alloc: Global) -> Sketch {
        Sketch {
            alloc,
            shapes: Vec::new(alloc),
        }
    }

    pub fn alloc(&self) -> Global {
        self.alloc
    }

    /// Whether a shape looks so.
    pub fn has(&self, look: Look) -> bool {
        self.shapes.iter().any(|shape| shape.look == look)
    }

    /// Whether a mark is of a call that was refused.
    pub fn has_refusal(&self) -> bool {
        self.shapes.iter().any(|shape| matches!(
            shape.look,
            Look::Mark {
                fill: Fill::Hollow,
                ..
            }
        ))
    }

    fn add(&mut self, form: Form, look: Look, title: &[u8]) -> Result<(), AllocError> {
        let title = joined(self.alloc, &[title])?;
        self.shapes.push(Shape { form, look, title })?;
        Ok(())
    }

    pub fn line(
        &mut self,
        look: Look,
        from: (u64, u64),
        to: (u64, u64),
        title: &[u8],
    ) -> Result<(), AllocError> {
        let form = Form::Line {
            x: from.0,
            y: from.1,
            to_x: to.0,
            to_y: to.1,
        };
        self.add(form, look, title)
    }

    /// A bar from one corner to the other.
    pub fn bar(
        &mut self,
        look: Look,
        from: (u64, u64),
        to: (u64, u64),
        title: &[u8],
    ) -> Result<(), AllocError> {
        let form = Form::Bar {
            x: from.0,
            y: from.1,
            width: minus(to.0, from.0),
            height: minus(to.1, from.1),
        };
        self.add(form, look, title)
    }

    pub fn dot(
        &mut self,
        look: Look,
        at: (u64, u64),
        radius: u64,
        title: &[u8],
    ) -> Result<(), AllocError> {
        let form = Form::Dot {
            x: at.0,
            y: at.1,
            radius,
        };
        self.add(form, look, title)
    }

    pub fn area(
        &mut self,
        look: Look,
        points: Vec<(u64, u64)>,
        title: &[u8],
    ) -> Result<(), AllocError> {
        self.add(Form::Area(points), look, title)
    }

    pub fn text(
        &mut self,
        look: Look,
        at: (u64, u64),
        run: Run,
        pieces: &[&[u8]],
    ) -> Result<(), AllocError> {
        let text = joined(self.alloc, pieces)?;
        let form = Form::Text {
            x: at.0,
            y: at.1,
            run,
            text,
        };
        self.add(form, look, b"")
    }

    /// A number in text.
    pub fn number(&self, number: u64) -> Result<String, AllocError> {
        format!(in self.alloc; "{number}")
    }

    /// A mark with the number of its caller, if it is large enough.
    pub fn mark(
        &mut self,
        by: u64,
        reply: &Reply,
        at: (u64, u64),
        radius: u64,
        title: &[u8],
    ) -> Result<(), AllocError> {
        let fill = Fill::of(reply);
        self.dot(Look::Mark { by, fill }, at, radius, title)?;
        if radius < 6 || by > 99 {
            return Ok(());
        }
        let number = self.number(by)?;
        let below = (at.0, plus(at.1, 3));
        self.text(Look::InMark(fill), below, Run::Both, &[number.as_bytes()])
    }
}
