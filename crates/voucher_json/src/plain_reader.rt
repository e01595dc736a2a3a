//! A reader of tokens that stand in plain form: texts with nothing escaped, and whole numbers.
ghost use Rattle.std.specs.Prelude.{◌≡◌, ◌∷◌, [], IsTrue, IsFalse, IfSome};
ghost use Rattle.json.specs.Lex.{between, lex, tokens, punctuate, after_value};
ghost use Rattle.json.specs.Token.{begin_object, end_object, begin_array, end_array, key, string};
ghost use Rattle.voucher_json.specs.FieldNames.{field_text};
ghost use Rattle.voucher_json.specs.PlainTokens.{tokens_at, may_begin, may_close};
ghost use Rattle.voucher_json.specs.UsualTexts.{BeginsWithNumber};

use crate::field_names::field_text;
use crate::text_fronts::{
    after_byte, after_key, skip_blanks, split_number, split_text, value_ends,
};
use std::marker::Model;
use stock_model::read_faults::FieldName;

/// What stands before the next token.
#[derive(Clone, Copy, Drop)]
pub(crate) enum Position {
    Fresh,
    AfterComma,
    AfterValue,
}

impl Position {
    #[inline(always)]
    fn may_begin(self) -> bool
        ensures { result ≡ may_begin self }
    {
        !matches!(self, Position::AfterValue)
    }

    #[inline(always)]
    fn may_close(self) -> bool
        ensures { result ≡ may_close self }
    {
        !matches!(self, Position::AfterComma)
    }
}

/// A reader of a text. Contracts see the tokens that are still to come. Of a token in any other form it gives
/// nothing, though the text may be JSON.
#[derive(Drop)]
pub struct PlainReader<'a> {
    place: Position,
    rest: &'a str,
}

impl<'a> Model for PlainReader<'a> {
    ghost use Rattle.std.specs.Prelude.{List};
    ghost use Rattle.json.specs.Token.{Token, tokens_code};
    ghost use Rattle.voucher_json.specs.PlainTokens.{tokens_at};

    ghost Value = { List Token };

    ghost coded = { tokens_code };

    ghost view = { λ reader. tokens_at reader.place reader.rest.now };
}

/// Passes the comma that may follow a value.
#[inline(always)]
fn pass_comma(text: &str) -> (Position, &str)
    ensures { tokens_at result.0 result.1.now ≡ punctuate after_value (lex between text.now) }
{
    match after_byte(text, b',') {
        Some(rest) => (Position::AfterComma, rest),
        None => (Position::AfterValue, text),
    }
}

impl<'a> PlainReader<'a> {
    /// A reader of a whole text.
    #[inline(always)]
    pub fn new(text: &'a str) -> PlainReader<'a>
        ensures { result ≡ tokens text.now }
    {
        PlainReader {
            place: Position::Fresh,
            rest: text,
        }
    }

    /// Whether an object opens.
    #[inline(always)]
    pub fn opens_object(&mut self) -> bool
        ensures { IsTrue result → self.old ≡ begin_object ∷ self.new }
    {
        match after_byte(skip_blanks(self.rest), b'{') {
            Some(rest) if self.place.may_begin() => {
                self.place = Position::Fresh;
                self.rest = rest;
                true
            }
            _ => false,
        }
    }

    /// Whether an object closes.
    #[inline(always)]
    pub fn closes_object(&mut self) -> bool
        ensures { IsTrue result → self.old ≡ end_object ∷ self.new }
    {
        match after_byte(skip_blanks(self.rest), b'}') {
            Some(rest) if self.place.may_close() => {
                (self.place, self.rest) = pass_comma(rest);
                true
            }
            _ => false,
        }
    }

    /// Whether a list opens.
    #[inline(always)]
    pub fn opens_list(&mut self) -> bool
        ensures { IsTrue result → self.old ≡ begin_array ∷ self.new }
    {
        match after_byte(skip_blanks(self.rest), b'[') {
            Some(rest) if self.place.may_begin() => {
                self.place = Position::Fresh;
                self.rest = rest;
                true
            }
            _ => false,
        }
    }

    /// Whether a list closes. Where it does not, the reader stands where it stood.
    #[inline(always)]
    pub fn closes_list(&mut self) -> bool
        ensures passed { IsTrue result → self.old ≡ end_array ∷ self.new }
        ensures stands { IsFalse result → self.new ≡ self.old }
    {
        match after_byte(skip_blanks(self.rest), b']') {
            Some(rest) if self.place.may_close() => {
                (self.place, self.rest) = pass_comma(rest);
                true
            }
            _ => false,
        }
    }

    /// Whether the key of this field comes.
    #[inline(always)]
    pub fn has_key(&mut self, name: FieldName) -> bool
        ensures { IsTrue result → self.old ≡ key (field_text name) ∷ self.new }
    {
        match after_key(skip_blanks(self.rest), field_text(name)) {
            Some(rest) if self.place.may_begin() => {
                self.place = Position::Fresh;
                self.rest = rest;
                true
            }
            _ => false,
        }
    }

    /// A text with nothing escaped.
    #[inline(always)]
    pub fn next_text(&mut self) -> Option<&'a str>
        ensures { IfSome result (λ text. self.old ≡ string text.now ∷ self.new) }
    {
        let opened = after_byte(skip_blanks(self.rest), b'"')?;
        let (text, rest) = split_text(opened)?;
        if !self.place.may_begin() || !value_ends(rest) {
            return None;
        }
        (self.place, self.rest) = pass_comma(rest);
        Some(text)
    }

    /// A whole number that is not negative, below 10^16.
    #[inline(always)]
    pub fn next_number(&mut self) -> Option<u64>
        ensures { IfSome result (λ n. BeginsWithNumber self.old n self.new) }
    {
        let (number, rest) = split_number(skip_blanks(self.rest))?;
        if !self.place.may_begin() {
            return None;
        }
        (self.place, self.rest) = pass_comma(rest);
        Some(number)
    }

    /// Whether no token is left.
    #[inline(always)]
    pub fn is_at_end(&self) -> bool
        ensures { IsTrue result → self.now ≡ [] }
    {
        self.place.may_close() && skip_blanks(self.rest).is_empty()
    }
}
