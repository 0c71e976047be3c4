//! What a walk of one instance gives.

use base::Text;
use darwin_lexer::At;

/// An instance within another: a single one, or an element of an array.
#[derive(Clone, Copy)]
pub struct Segment<'a> {
    pub name: &'a Text,
    pub index: Option<i32>,
}

/// An instance that a reached entry makes, with the values of its arguments and the entry's place.
#[derive(Drop)]
pub struct Child<'a> {
    pub segment: Segment<'a>,
    pub component: &'a Text,
    pub arguments: Vec<i32>,
    pub at: At,
}

/// An end of a binding: a port of an instance within, or of the instance itself.
#[derive(Clone, Copy)]
pub struct End<'a> {
    pub inner: Option<Segment<'a>>,
    pub port: &'a Text,
    pub index: Option<i32>,
}

/// A binding that is reached, its ends as they were written.
#[derive(Clone, Copy)]
pub struct Binding<'a> {
    pub left: End<'a>,
    pub right: End<'a>,
    pub at: At,
}

/// What an instance gives: the sizes of its ports in order, the instances that its entries make, its
/// bindings, and how many turns it takes and entries it reaches.
#[derive(Drop)]
pub struct Walked<'a> {
    pub port_sizes: Vec<Option<i32>>,
    pub children: Vec<Child<'a>>,
    pub bindings: Vec<Binding<'a>>,
    pub count: u64,
}
