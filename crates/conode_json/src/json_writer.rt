//! A JSON document that is being written (RFC 8259).

ghost use Rattle.std.specs.Prelude.{◌≡◌, ◌++◌, [], ◌∷◌, map, IfOk, OnOk};
ghost use Rattle.json.specs.Print.{IsPrintable, print};
ghost use Rattle.json.specs.Reads.{token_of};
ghost use Rattle.json.specs.Token.{begin_object, end_array, end_object, key, string};
ghost use Rattle.conode_json.specs.Characters.{utf8_of};
ghost use Rattle.conode_json.specs.Members.{
  array_begin,
  byte_token,
  count_member,
  flag_member,
  is_exact,
  number_if,
  number_member,
  number_token,
  numbers_member,
  object_begin,
  text_member,
};

use crate::characters::utf8_of;
use json::{Token, Writer};
use std::alloc::{AllocError, Global};
use std::marker::Model;

/// The greatest number that every reader of JSON keeps exactly, 2^53 - 1, and the smallest one.
const GREATEST_EXACT: i128 = 9_007_199_254_740_991;

const LEAST_EXACT: i128 = -9_007_199_254_740_991;

fn is_exact(number: i128) -> bool
    ensures { result ≡ is_exact number }
{
    LEAST_EXACT <= number && number <= GREATEST_EXACT
}

// bytes as numbers, in an array that is begun
fn put_elements(writer: &mut Writer, bytes: &[u8]) -> Result<(), AllocError>
    ensures tokens { OnOk result
        (writer.new.tokens ≡ writer.old.tokens ++ map byte_token bytes.now) }
    ensures before { writer.new.before ≡ writer.old.before }
{
    for byte in bytes {
        writer.u64(*byte as u64)?;
    }
    Ok(())
}

/// A document that is being written. Contracts see its tokens. Each method appends tokens, and
/// leaves it to its caller that they are nested rightly. `Err`: out of memory; some tokens may be
/// there.
#[derive(Drop)]
pub struct JsonWriter {
    writer: Writer,
}

impl Model for JsonWriter {
    ghost use Rattle.std.specs.Prelude.{◌≡◌, List, []};
    ghost use Rattle.json.specs.Token.{Token, tokens_code};

    ghost Value = { List Token };

    ghost coded = { tokens_code };

    ghost view = { λ w. w.writer.tokens };

    // nothing is before the document
    ghost invariant = { λ w. w.writer.before ≡ [] };
}

impl JsonWriter {
    /// Nothing is written.
    pub fn new(alloc: Global) -> Self
        ensures { result ≡ [] }
    {
        JsonWriter {
            writer: Writer::new(Vec::new(alloc)),
        }
    }

    /// The text, with a line feed at its end. `Err`: out of memory.
    pub fn into_text(self) -> Result<Vec<u8>, AllocError>
        ensures { IfOk result (λ text. text.items ≡ print self ++ 10 ∷ []) }
    {
        let JsonWriter { writer } = self;
        let mut text = writer.into_inner();
        text.push(b'\n')?;
        Ok(text)
    }

    // a token that is no number
    fn put(&mut self, token: Token<'_>) -> Result<(), AllocError>
        requires { IsPrintable (token_of token) }
        ensures { OnOk result (self.new ≡ self.old ++ token_of token.entry ∷ []) }
    {
        self.writer.token(token)?;
        Ok(())
    }

    // a member whose value is, or begins with, a token that is no number
    fn put_member(&mut self, name: &str, value: Token<'_>) -> Result<(), AllocError>
        requires { IsPrintable (token_of value) }
        ensures { OnOk result (self.new ≡ self.old ++ key name.now ∷ token_of value.entry ∷ []) }
    {
        self.put(Token::Key(name))?;
        self.put(value)
    }

    /// Begins an object: the document, or an element of an array.
    pub fn begin_object(&mut self) -> Result<(), AllocError>
        ensures { OnOk result (self.new ≡ self.old ++ begin_object ∷ []) }
    {
        self.put(Token::BeginObject)
    }

    /// Ends an object.
    pub fn end_object(&mut self) -> Result<(), AllocError>
        ensures { OnOk result (self.new ≡ self.old ++ end_object ∷ []) }
    {
        self.put(Token::EndObject)
    }

    /// Ends an array.
    pub fn end_array(&mut self) -> Result<(), AllocError>
        ensures { OnOk result (self.new ≡ self.old ++ end_array ∷ []) }
    {
        self.put(Token::EndArray)
    }

    /// Begins a member that is an object.
    #[tactic(auto, unfolding(crate::specs::Members::object_begin))]
    pub fn begin_object_of(&mut self, name: &str) -> Result<(), AllocError>
        ensures { OnOk result (self.new ≡ self.old ++ object_begin name.now) }
    {
        self.put_member(name, Token::BeginObject)
    }

    /// Begins a member that is an array.
    #[tactic(auto, unfolding(crate::specs::Members::array_begin))]
    pub fn begin_array_of(&mut self, name: &str) -> Result<(), AllocError>
        ensures { OnOk result (self.new ≡ self.old ++ array_begin name.now) }
    {
        self.put_member(name, Token::BeginArray)
    }

    /// A member that is a text.
    #[tactic(auto, unfolding(crate::specs::Members::text_member))]
    pub fn put_text(&mut self, name: &str, text: &str) -> Result<(), AllocError>
        ensures { OnOk result (self.new ≡ self.old ++ text_member name.now text.now) }
    {
        self.put_member(name, Token::String(text))
    }

    /// A member that is a text from outside, in UTF-8: as it is if it is valid, else converted from
    /// Windows-1252.
    #[tactic(auto, unfolding(crate::specs::Members::text_member))]
    pub fn put_bytes(&mut self, alloc: Global, name: &str, bytes: &[u8]) -> Result<(), AllocError>
        ensures { OnOk result (self.new ≡ self.old ++ text_member name.now (utf8_of bytes.now)) }
    {
        self.put(Token::Key(name))?;
        self.put_element(alloc, bytes)
    }

    /// An element that is a text from outside, in UTF-8 in the same way.
    pub fn put_element(&mut self, alloc: Global, bytes: &[u8]) -> Result<(), AllocError>
        ensures { OnOk result (self.new ≡ self.old ++ string (utf8_of bytes.now) ∷ []) }
    {
        let text = utf8_of(alloc, bytes)?;
        self.put(Token::String(text.as_str()))
    }

    /// A member that is true or false.
    #[tactic(auto, unfolding(crate::specs::Members::flag_member))]
    pub fn put_flag(&mut self, name: &str, is: bool) -> Result<(), AllocError>
        ensures { OnOk result (self.new ≡ self.old ++ flag_member name.now is) }
    {
        self.put_member(name, Token::Bool(is))
    }

    /// A member that is a number of things.
    #[tactic(auto, unfolding(crate::specs::Members::count_member))]
    pub fn put_count(&mut self, name: &str, count: u64) -> Result<(), AllocError>
        ensures { OnOk result (self.new ≡ self.old ++ count_member name.now count) }
    {
        self.put(Token::Key(name))?;
        self.writer.u64(count)?;
        Ok(())
    }

    // a number as a value
    fn number(&mut self, alloc: Global, number: i128) -> Result<(), AllocError>
        ensures { OnOk result (self.new ≡ self.old ++ number_token number ∷ []) }
    {
        if is_exact(number) {
            self.writer.i64(number as i64)?;
            return Ok(());
        }
        let digits = format!(in alloc; "{number}")?;
        self.put(Token::String(digits.as_str()))
    }

    /// A member that is a number; one that readers might not keep exactly becomes a string of its
    /// digits.
    #[tactic(auto, unfolding(crate::specs::Members::number_member))]
    pub fn put_number(&mut self, alloc: Global, name: &str, number: i128) -> Result<(), AllocError>
        ensures { OnOk result (self.new ≡ self.old ++ number_member name.now number) }
    {
        self.put(Token::Key(name))?;
        self.number(alloc, number)
    }

    /// A member that is a number, nothing for `None`.
    pub fn put_number_if(
        &mut self,
        alloc: Global,
        name: &str,
        number: Option<i128>,
    ) -> Result<(), AllocError>
        ensures { OnOk result (self.new ≡ self.old ++ number_if name.now number) }
    {
        match number {
            Some(number) => self.put_number(alloc, name, number),
            None => Ok(()),
        }
    }

    /// A member that is an array of numbers.
    #[tactic(auto, unfolding(crate::specs::Members::array_begin, crate::specs::Members::numbers_member))]
    pub fn put_numbers(&mut self, name: &str, bytes: &[u8]) -> Result<(), AllocError>
        ensures { OnOk result (self.new ≡ self.old ++ numbers_member name.now bytes.now) }
    {
        self.begin_array_of(name)?;
        put_elements(&mut self.writer, bytes)?;
        self.put(Token::EndArray)
    }
}
