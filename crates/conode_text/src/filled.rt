//! Words with values in them. Each function appends a text. `Err`: out of memory; a part of it may
//! be there.

ghost use Rattle.std.specs.Prelude.{
  ◌≡◌,
  ◌++◌,
  ◌<◌,
  ℕ,
  IfNone,
  IfSome,
  List,
  OnOk,
  drop,
  length,
  map,
  string_bytes,
};
ghost use Rattle.conode_text.specs.Filled.{filled, first_text};

use std::alloc::AllocError;

/// A value that has a text.
pub trait HasText {
    /// Its text.
    ghost text_of: { Self → List ℕ };

    /// Appends its text. `Err`: out of memory; a part of it may be there.
    fn push(&self, text: &mut String) -> Result<(), AllocError>
        ensures { OnOk result (string_bytes text.new ≡ string_bytes text.old ++ text_of self.now) };
}

// the first value, if there is one
fn push_first<V: HasText>(text: &mut String, values: &[V]) -> Result<(), AllocError>
    ensures { OnOk result
        (string_bytes text.new ≡ string_bytes text.old ++ first_text (map V.text_of values.now)) }
{
    match values {
        [value, ..] => value.push(text),
        _ => Ok(()),
    }
}

fn without_first<V>(values: &[V]) -> &[V]
    ensures { result.now ≡ drop 1 values.now }
{
    match values {
        [_, others @ ..] => others,
        _ => values,
    }
}

// the words before their first place, and after it; `None` where they have none
fn first_place(words: &str) -> Option<(&str, &str)>
    ensures none { IfNone result
        ((texts : List (List ℕ)) → filled words.now texts ≡ words.now) }
    ensures place { IfSome result (λ cut. (texts : List (List ℕ)) → filled words.now texts
        ≡ cut.0.now ++ (first_text texts ++ filled cut.1.now (drop 1 texts))) }
    ensures shorter { IfSome result (λ cut. length cut.1.now < length words.now) }
{
    words.split_once('%')
}

/// Appends words as they are, with these values in their places, one after another: each percent
/// sign is a place. `Err`: out of memory; a part of the text may be there.
pub fn push_filled<V: HasText>(
    text: &mut String,
    words: &str,
    values: &[V],
) -> Result<(), AllocError>
    ensures { OnOk result (string_bytes text.new
        ≡ string_bytes text.old ++ filled words.now (map V.text_of values.now)) }
{
    let mut rest = words;
    let mut values = values;
    while let Some((front, more)) = first_place(rest) {
        text.push_str(front)?;
        push_first(text, values)?;
        values = without_first(values);
        rest = more;
    }
    text.push_str(rest)
}
