ghost use Rattle.std.specs.Prelude.{◌≡◌, ◌++◌, OnOk};
ghost use Rattle.svg_text.specs.Drawing.{class_text, class_word, element_text, end_tag};
ghost use Rattle.svg_text.specs.Drawing.{inside_text};
ghost use Rattle.svg_text.specs.Drawing.{start_tag, tag_word, title_text, words_text};

use crate::escaping::{put_escaped, put_titled};
use crate::measuring::put_measures;
use crate::{Class, Element, Shape};
use plain_text::{Bytes, NoMemory};

/// The word of a class.
fn word_of(class: Class) -> &'static [u8]
    ensures { result.now ≡ class_word class }
{
    match class {
        Class::Paper => b"paper",
        Class::Heading => b"heading",
        Class::Label => b"label",
        Class::Note => b"note",
        Class::Lane => b"lane",
        Class::Band => b"band",
        Class::OtherBand => b"other-band",
        Class::Take => b"take",
        Class::Touch => b"touch",
        Class::Read => b"read",
        Class::Clock => b"clock",
        Class::Draw => b"draw",
        Class::Send => b"send",
        Class::End => b"end",
        Class::Again => b"again",
        Class::Lost => b"lost",
        Class::Arrow => b"arrow",
        Class::Entry => b"entry",
        Class::Waiting => b"waiting",
        Class::Released => b"released",
        Class::Snap => b"snap",
        Class::Store => b"store",
        Class::Crash => b"crash",
        Class::Recover => b"recover",
        Class::Fed => b"fed",
        Class::Left => b"left",
        Class::Held => b"held",
        Class::Bar => b"bar",
    }
}

/// The name of the tag of a shape.
fn tag_of(shape: &Shape) -> &'static [u8]
    ensures { result.now ≡ tag_word shape.now }
{
    match shape {
        Shape::Line { .. } => b"line",
        Shape::Rectangle { .. } => b"rect",
        Shape::Circle { .. } => b"circle",
        Shape::Polygon(_) => b"polygon",
        Shape::Polyline(_) => b"polyline",
        Shape::Words { .. } => b"text",
    }
}

/// Appends the class of an element, as an attribute.
fn put_class(out: &mut Bytes, class: Class) -> Result<(), NoMemory>
    ensures { OnOk result (out.new ≡ out.old ++ class_text class) }
{
    out.extend(b" class=\"")?;
    out.extend(word_of(class))?;
    out.push(b'"')
}

/// Appends the title of an element, if it has one.
fn put_title(out: &mut Bytes, title: &Option<Bytes>) -> Result<(), NoMemory>
    ensures { OnOk result (out.new ≡ out.old ++ title_text title.now) }
{
    match title {
        Some(title) => put_titled(out, title.as_slice()),
        None => Ok(()),
    }
}

/// Appends the words of an element, if it is one of words.
fn put_words(out: &mut Bytes, shape: &Shape) -> Result<(), NoMemory>
    ensures { OnOk result (out.new ≡ out.old ++ words_text shape.now) }
{
    match shape {
        Shape::Words { words, .. } => put_escaped(out, words.as_slice()),
        _ => Ok(()),
    }
}

/// Appends the start tag of an element.
fn put_start_tag(out: &mut Bytes, element: &Element) -> Result<(), NoMemory>
    ensures { OnOk result (out.new ≡ out.old ++ start_tag element.now) }
{
    out.push(b'<')?;
    out.extend(tag_of(&element.shape))?;
    put_class(out, element.class)?;
    put_measures(out, &element.shape)?;
    out.push(b'>')
}

/// Appends what stands between the tags of an element.
fn put_inside(out: &mut Bytes, element: &Element) -> Result<(), NoMemory>
    ensures { OnOk result (out.new ≡ out.old ++ inside_text element.now) }
{
    put_title(out, &element.title)?;
    put_words(out, &element.shape)
}

/// Appends the end tag of an element.
fn put_end_tag(out: &mut Bytes, element: &Element) -> Result<(), NoMemory>
    ensures { OnOk result (out.new ≡ out.old ++ end_tag element.now) }
{
    out.extend(b"</")?;
    out.extend(tag_of(&element.shape))?;
    out.push(b'>')
}

/// Appends an element, on a line of its own.
pub fn put_element(out: &mut Bytes, element: &Element) -> Result<(), NoMemory>
    ensures { OnOk result (out.new ≡ out.old ++ element_text element.now) }
{
    put_start_tag(out, element)?;
    put_inside(out, element)?;
    put_end_tag(out, element)?;
    out.push(b'\n')
}
