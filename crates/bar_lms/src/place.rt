//! A place among remembered chain values.

use crate::remembered::Remembered;
use std::cell::RefCell;

/// The place that a number selects among those that are remembered.
#[derive(Clone, Copy)]
pub struct Place<'a> {
    pub remembered: &'a RefCell<Remembered>,
    pub number: u32,
}
