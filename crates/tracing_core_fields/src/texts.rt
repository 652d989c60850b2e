//! Lists of texts that are lent: the names of fields, and the texts of an error's sources.
ghost use Rattle.std.specs.Prelude.{◌≡◌, ◌↔◌, ◌<◌, ◌≤◌, ◌++◌, [], drop, length, map, slice_index_or, string_bytes, IfSome, IsTrue};
ghost use Rattle.std.specs.Prelude.{MatchOption};
ghost use Rattle.std.specs.Fmt.{WritesOnOk, comma_space};
ghost use Rattle.std.specs.Cmp.Lexicographic.{pointwise};
ghost use Rattle.std.specs.List.{flat_map, join_by, position_from};
ghost use Rattle.std.specs.Str.{bytes_eq};
ghost use Rattle.tracing_core_fields.specs.Texts.{texts_in};

use std::fmt;

/// Texts in order, each of which is lent by itself or by the `String` that holds it.
///
/// Two lists are equal where they have the same texts in the same order, however these are lent.
#[derive(Clone, Copy, Debug)]
pub enum Texts<'a> {
    /// Texts that are lent one by one, such as those that stand in the source.
    Lent(&'a [&'a str]),
    /// Texts that were made when the program ran.
    Owned(&'a [String]),
}

// The text at the index of texts that are lent.
fn lent_text<'a>(texts: &'a [&'a str], index: usize) -> &'a str
    requires { index < length (map (λ text. text.now) texts.now) }
    ensures { result.now ≡ slice_index_or (map (λ text. text.now) texts.now) index [] }
{
    texts[index]
}

// The text at the index of texts that are owned.
fn owned_text(texts: &[String], index: usize) -> &str
    requires { index < length (map string_bytes texts.now) }
    ensures { result.now ≡ slice_index_or (map string_bytes texts.now) index [] }
{
    texts[index].as_str()
}

impl<'a> Texts<'a> {
    /// How many texts there are.
    pub fn len(&self) -> usize
        ensures { result ≡ length (texts_in self.now) }
    {
        match self {
            Texts::Lent(texts) => texts.len(),
            Texts::Owned(texts) => texts.len(),
        }
    }

    /// Whether there is no text.
    pub fn is_empty(&self) -> bool
        ensures { IsTrue result ↔ (length (texts_in self.now) ≡ 0) }
    {
        self.len() == 0
    }

    /// The text at the index, from 0; none past the end.
    pub fn get(&self, index: usize) -> Option<&'a str>
        ensures { MatchOption result (length (texts_in self.now) ≤ index) (λ text.
            (index < length (texts_in self.now)) × (text.now ≡ slice_index_or (texts_in self.now) index [])) }
    {
        if index < self.len() {
            Some(self.text(index))
        } else {
            None
        }
    }

    // The text at the index.
    pub(crate) fn text(&self, index: usize) -> &'a str
        requires { index < length (texts_in self.now) }
        ensures { result.now ≡ slice_index_or (texts_in self.now) index [] }
    {
        match self {
            Texts::Lent(texts) => lent_text(texts, index),
            Texts::Owned(texts) => owned_text(texts, index),
        }
    }

    // The index of the first text that is this one.
    pub(crate) fn index_of(&self, text: &str) -> Option<usize>
        ensures value { result ≡ position_from (λ other. bytes_eq other text.now) 0 (texts_in self.now) }
        ensures bound { IfSome result (λ index. index < length (texts_in self.now)) }
    {
        for index in 0..self.len() {
            if self.text(index) == text {
                return Some(index);
            }
        }
        None
    }

    // Whether the others are the same texts in the same order.
    pub(crate) fn are(&self, others: &Texts<'_>) -> bool
        ensures { result ≡ pointwise bytes_eq (texts_in self.now) (texts_in others.now) }
    {
        if self.len() != others.len() {
            return false;
        }
        for index in 0..self.len() {
            if self.text(index) != others.text(index) {
                return false;
            }
        }
        true
    }

    // Writes a comma, and then the text at the index.
    fn write_later<W: fmt::Write>(&self, index: usize, f: &mut fmt::Formatter<W>) -> fmt::Result
        requires { index < length (texts_in self.now) }
        ensures { WritesOnOk W.write_str_gives f.old result
            (comma_space ++ slice_index_or (texts_in self.now) index []) f.new }
    {
        f.write_str(", ")?;
        f.write_str(self.text(index))
    }

    // Writes the texts after the first, a comma before each.
    fn write_all_later<W: fmt::Write>(&self, f: &mut fmt::Formatter<W>) -> fmt::Result
        ensures { WritesOnOk W.write_str_gives f.old result
            (flat_map (λ text. comma_space ++ text) (drop 1 (texts_in self.now))) f.new }
    {
        for index in 1..self.len() {
            self.write_later(index, f)?;
        }
        Ok(())
    }

    // Writes the texts, a comma between each two.
    pub(crate) fn write<W: fmt::Write>(&self, f: &mut fmt::Formatter<W>) -> fmt::Result
        ensures { WritesOnOk W.write_str_gives f.old result (join_by (λ text. text) comma_space (texts_in self.now))
            f.new }
    {
        if self.len() == 0 {
            return Ok(());
        }
        f.write_str(self.text(0))?;
        self.write_all_later(f)
    }
}

impl PartialEq for Texts<'_> {
    ghost use Rattle.std.specs.Cmp.{partial_equiv_from_equiv};
    ghost use Rattle.tracing_core_fields.specs.Texts.{are_same_texts, are_same_texts-equivalence};

    ghost eq = { are_same_texts };

    ghost laws = { partial_equiv_from_equiv are_same_texts-equivalence };

    fn eq(&self, other: &Self) -> bool {
        self.are(other)
    }
}

impl Eq for Texts<'_> {
    ghost use Rattle.tracing_core_fields.specs.Texts.{are_same_texts-equivalence};

    ghost laws = { are_same_texts-equivalence };
}
