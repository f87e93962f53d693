ghost use Rattle.std.specs.Prelude.{◌≡◌, ◌++◌, IfOk, OnOk, codes, decimal};
ghost use Rattle.std.specs.List.{flat_map};
ghost use Rattle.svg_text.specs.Drawing.{drawing_text, element_text, end_text, field_text};
ghost use Rattle.svg_text.specs.Drawing.{look_text, opening_tag, size_text, start_text};

use crate::element::put_element;
use crate::escaping::put_titled;
use crate::look::{LOOK, TIP};
use crate::measuring::put_attribute;
use crate::{Drawing, Element};
use plain_text::{Bytes, NoMemory, put_u64};
use std::alloc::Global;

/// Appends two numbers.
fn put_two(out: &mut Bytes, first: u32, second: u32) -> Result<(), NoMemory>
    ensures { OnOk result (out.new ≡ out.old ++ (decimal first ++ codes " " ++ decimal second)) }
{
    put_u64(out, u64::from(first))?;
    out.push(b' ')?;
    put_u64(out, u64::from(second))
}

/// Appends the field that the places of a picture are in, as an attribute.
fn put_field(out: &mut Bytes, width: u32, height: u32) -> Result<(), NoMemory>
    ensures { OnOk result (out.new ≡ out.old ++ field_text width height) }
{
    out.extend(b" viewBox=\"0 0 ")?;
    put_two(out, width, height)?;
    out.push(b'"')
}

/// Appends the size of a picture, as attributes.
fn put_size(out: &mut Bytes, width: u32, height: u32) -> Result<(), NoMemory>
    ensures { OnOk result (out.new ≡ out.old ++ size_text width height) }
{
    put_field(out, width, height)?;
    put_attribute(out, b"width", width)?;
    put_attribute(out, b"height", height)
}

/// Appends the start tag of a picture.
fn put_opening(out: &mut Bytes, width: u32, height: u32) -> Result<(), NoMemory>
    ensures { OnOk result (out.new ≡ out.old ++ opening_tag width height) }
{
    out.extend(b"<svg")?;
    out.extend(b" xmlns=\"http://www.w3.org/2000/svg\"")?;
    put_size(out, width, height)?;
    out.extend(b">\n")
}

/// Appends how the elements look.
fn put_look(out: &mut Bytes) -> Result<(), NoMemory>
    ensures { OnOk result (out.new ≡ out.old ++ look_text) }
{
    out.extend(b"<style>\n")?;
    out.extend(LOOK)?;
    out.extend(b"</style>\n")?;
    out.extend(TIP)
}

/// Appends what stands before the elements of a picture.
pub fn put_start(out: &mut Bytes, width: u32, height: u32, title: &[u8]) -> Result<(), NoMemory>
    ensures { OnOk result (out.new ≡ out.old ++ start_text width height title.now) }
{
    put_opening(out, width, height)?;
    put_titled(out, title)?;
    out.push(b'\n')?;
    put_look(out)
}

/// Appends elements of a picture.
fn put_elements(out: &mut Bytes, elements: &[Element]) -> Result<(), NoMemory>
    ensures { OnOk result (out.new ≡ out.old ++ flat_map element_text elements.now) }
{
    for element in elements {
        put_element(out, element)?;
    }
    Ok(())
}

/// Appends what stands behind the elements of a picture.
pub fn put_end(out: &mut Bytes) -> Result<(), NoMemory>
    ensures { OnOk result (out.new ≡ out.old ++ end_text) }
{
    out.extend(b"</svg>\n")
}

/// The text of a picture.
pub fn put_drawing(alloc: Global, drawing: &Drawing) -> Result<Bytes, NoMemory>
    ensures { IfOk result (λ text. text ≡ drawing_text drawing.now) }
{
    let mut text = Bytes::new(alloc);
    put_start(
        &mut text,
        drawing.width,
        drawing.height,
        drawing.title.as_slice(),
    )?;
    put_elements(&mut text, drawing.elements.as_slice())?;
    put_end(&mut text)?;
    Ok(text)
}
