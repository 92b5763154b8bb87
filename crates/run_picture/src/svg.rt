//! Writing a picture as SVG.

use crate::shapes::{Form, Look, Run, Shape};
use crate::style::{HEAD, STYLE};
use std::alloc::{AllocError, Global};
use svg_words::escape;

fn put(out: &mut Vec<u8>, text: &str) -> Result<(), AllocError> {
    out.extend_from_slice(text.as_bytes())?;
    Ok(())
}

/// The colour of a caller: the script has its own.
fn colour_of(by: u64) -> u64 {
    match by {
        0 => 0,
        _ => (by - 1) % 7 + 1,
    }
}

fn put_class(alloc: Global, out: &mut Vec<u8>, look: Look) -> Result<(), AllocError> {
    let name = match look {
        Look::Mark { by, fill } => {
            let colour = colour_of(by);
            let fill = fill.name();
            let class = format!(in alloc; "mark k{colour} {fill}")?;
            return put(out, class.as_str());
        }
        Look::InMark(fill) => {
            let fill = fill.name();
            let class = format!(in alloc; "in {fill}")?;
            return put(out, class.as_str());
        }
        Look::Held(layer) => {
            let colour = layer % 6;
            let class = format!(in alloc; "layer h{colour}")?;
            return put(out, class.as_str());
        }
        Look::Paid(layer) => {
            let colour = layer % 6;
            let class = format!(in alloc; "layer p{colour}")?;
            return put(out, class.as_str());
        }
        Look::Plain => "plain",
        Look::Heading => "heading",
        Look::Word => "word",
        Look::Small => "small",
        Look::Strong => "strong",
        Look::Warning => "warning",
        Look::Rule => "rule",
        Look::Grid => "grid",
        Look::TimeLine => "time",
        Look::Open => "open",
        Look::Challenged => "challenged",
        Look::Final => "final",
        Look::Arrow => "arrow",
        Look::ArrowUntold => "arrow untold",
        Look::Untold => "layer untold",
    };
    put(out, name)
}

fn tag_of(form: &Form) -> &'static str {
    match form {
        Form::Line { .. } => "line",
        Form::Bar { .. } => "rect",
        Form::Dot { .. } => "circle",
        Form::Area(_) => "polygon",
        Form::Text { .. } => "text",
    }
}

fn put_points(alloc: Global, out: &mut Vec<u8>, points: &[(u64, u64)]) -> Result<(), AllocError> {
    put(out, " points=\"")?;
    for point in points {
        let (x, y) = *point;
        let text = format!(in alloc; "{x},{y} ")?;
        put(out, text.as_str())?;
    }
    put(out, "\"")
}

/// The attributes of a text that say which way it runs.
fn run_text(alloc: Global, x: u64, y: u64, run: Run) -> Result<String, AllocError> {
    match run {
        Run::Right => format!(in alloc; ""),
        Run::Left => format!(in alloc; " text-anchor=\"end\""),
        Run::Both => format!(in alloc; " text-anchor=\"middle\""),
        Run::Rising => format!(in alloc; " transform=\"rotate(-33 {x} {y})\""),
        Run::RisingTo => {
            format!(in alloc; " text-anchor=\"end\" transform=\"rotate(-33 {x} {y})\"")
        }
    }
}

fn put_attributes(alloc: Global, out: &mut Vec<u8>, form: &Form) -> Result<(), AllocError> {
    let text = match form {
        Form::Line { x, y, to_x, to_y } => {
            format!(in alloc; " x1=\"{x}\" y1=\"{y}\" x2=\"{to_x}\" y2=\"{to_y}\"")?
        }
        Form::Bar {
            x,
            y,
            width,
            height,
        } => format!(in alloc; " x=\"{x}\" y=\"{y}\" width=\"{width}\" height=\"{height}\"")?,
        Form::Dot { x, y, radius } => format!(in alloc; " cx=\"{x}\" cy=\"{y}\" r=\"{radius}\"")?,
        Form::Area(points) => return put_points(alloc, out, points),
        Form::Text { x, y, run, .. } => {
            let run = run_text(alloc, *x, *y, *run)?;
            format!(in alloc; " x=\"{x}\" y=\"{y}\"{run}")?
        }
    };
    put(out, text.as_str())
}

fn put_title(out: &mut Vec<u8>, title: &[u8]) -> Result<(), AllocError> {
    if title.is_empty() {
        return Ok(());
    }
    put(out, "<title>")?;
    escape(out, title)?;
    put(out, "</title>")
}

/// `<TAG class=".." ..><title>..</title>..</TAG>`
fn put_shape(alloc: Global, out: &mut Vec<u8>, shape: &Shape) -> Result<(), AllocError> {
    let tag = tag_of(&shape.form);
    put(out, "<")?;
    put(out, tag)?;
    put(out, " class=\"")?;
    put_class(alloc, out, shape.look)?;
    put(out, "\"")?;
    put_attributes(alloc, out, &shape.form)?;
    put(out, ">")?;
    put_title(out, &shape.title)?;
    if let Form::Text { text, .. } = &shape.form {
        escape(out, text)?;
    }
    put(out, "</")?;
    put(out, tag)?;
    put(out, ">\n")
}

/// The picture of shapes, of this width and height; `title` is what it shows.
pub fn svg_of(
    alloc: Global,
    shapes: &[Shape],
    width: u64,
    height: u64,
    title: &[u8],
) -> Result<Vec<u8>, AllocError> {
    let mut out = Vec::new(alloc);
    let size = format!(in alloc;
        " width=\"{width}\" height=\"{height}\" viewBox=\"0 0 {width} {height}\">\n"
    )?;
    put(&mut out, HEAD)?;
    put(&mut out, size.as_str())?;
    put_title(&mut out, title)?;
    put(&mut out, STYLE)?;
    for shape in shapes {
        put_shape(alloc, &mut out, shape)?;
    }
    put(&mut out, "</svg>\n")?;
    Ok(out)
}
