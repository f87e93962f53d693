//! A picture as a value, and its text in SVG: a small part of it, which every viewer of web pages shows. What is
//! written is well-formed XML, whatever stands in the texts of the picture.
#![tactic(auto)]

mod class;
mod drawing;
mod element;
mod escaping;
mod laws;
mod look;
mod measuring;
mod whole;

pub use class::Class;
pub use drawing::{Drawing, Element, Elements, Point, Points, Shape};
pub use element::put_element;
pub use laws::{drawings_are_well_formed, texts_stay_texts};
pub use whole::{put_drawing, put_end, put_start};
