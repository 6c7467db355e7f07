//! Lists of texts.

use and_model::{ListOf, Text};

/// A list of texts.
pub type TextList = ListOf<Text>;
