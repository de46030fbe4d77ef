//! Forms of JSON, built part by part.

ghost use Rattle.std.specs.Prelude.{◌≡◌, ◌++◌, List, [], ℕ, map, decimal, IfOk};
ghost use Rattle.wire_json.specs.Json.{bracketed, quoted};

use std::alloc::{AllocError, Global};
use wire_json::{push_list, push_quoted};
use wire_words::push_number;

/// A form that is being built, or the fault that stopped it.
pub(crate) struct JsonBuilder {
    built: Result<Vec<u8>, AllocError>,
}

impl JsonBuilder {
    /// A form without parts.
    pub(crate) fn new(alloc: Global) -> JsonBuilder
        ensures { IfOk result.built (λ text. text.items ≡ []) }
    {
        JsonBuilder {
            built: Ok(Vec::new(alloc)),
        }
    }

    /// Puts these bytes behind it.
    pub(crate) fn put(self, bytes: &[u8]) -> JsonBuilder
        ensures { (before : List ℕ) → IfOk self.built (λ text. text.items ≡ before)
            → IfOk result.built (λ text. text.items ≡ before ++ bytes.now) }
    {
        let JsonBuilder { built } = self;
        match built {
            Ok(text) => JsonBuilder {
                built: put_bytes(text, bytes),
            },
            Err(fault) => JsonBuilder { built: Err(fault) },
        }
    }

    /// Puts a number behind it.
    pub(crate) fn put_number(self, number: u64) -> JsonBuilder
        ensures { (before : List ℕ) → IfOk self.built (λ text. text.items ≡ before)
            → IfOk result.built (λ text. text.items ≡ before ++ decimal number) }
    {
        let JsonBuilder { built } = self;
        match built {
            Ok(text) => JsonBuilder {
                built: put_digits(text, number),
            },
            Err(fault) => JsonBuilder { built: Err(fault) },
        }
    }

    /// Puts another form behind this one. If the other couldn't be made, this one keeps that fault.
    pub(crate) fn put_form(self, made: Result<Vec<u8>, AllocError>) -> JsonBuilder
        ensures { (before part : List ℕ) → IfOk self.built (λ text. text.items ≡ before) → IfOk made (λ text. text.items ≡ part)
            → IfOk result.built (λ text. text.items ≡ before ++ part) }
    {
        let JsonBuilder { built } = self;
        match built {
            Ok(text) => JsonBuilder {
                built: put_part(text, made),
            },
            Err(fault) => {
                drop(made);
                JsonBuilder { built: Err(fault) }
            }
        }
    }

    /// Puts words behind it as a string. If they couldn't be made, it keeps that fault.
    pub(crate) fn put_quoted(self, made: Result<Vec<u8>, AllocError>) -> JsonBuilder
        ensures { (before words : List ℕ) → IfOk self.built (λ text. text.items ≡ before) → IfOk made (λ text. text.items ≡ words)
            → IfOk result.built (λ text. text.items ≡ before ++ quoted words) }
    {
        let JsonBuilder { built } = self;
        match built {
            Ok(text) => JsonBuilder {
                built: put_string(text, made),
            },
            Err(fault) => {
                drop(made);
                JsonBuilder { built: Err(fault) }
            }
        }
    }

    /// Puts a list of these forms behind this one. If they couldn't be made, this one keeps that fault.
    pub(crate) fn put_list(self, made: Result<Vec<Vec<u8>>, AllocError>) -> JsonBuilder
        ensures { (before : List ℕ) (parts : List (List ℕ)) → IfOk self.built (λ text. text.items ≡ before)
            → IfOk made (λ texts. map (λ text. text.items) texts.items ≡ parts)
            → IfOk result.built (λ text. text.items ≡ before ++ bracketed parts) }
    {
        let JsonBuilder { built } = self;
        match built {
            Ok(text) => JsonBuilder {
                built: put_parts(text, made),
            },
            Err(fault) => {
                drop(made);
                JsonBuilder { built: Err(fault) }
            }
        }
    }

    /// The whole form.
    pub(crate) fn finish(self) -> Result<Vec<u8>, AllocError>
        ensures { (before : List ℕ) → IfOk self.built (λ text. text.items ≡ before) → IfOk result (λ text. text.items ≡ before) }
    {
        let JsonBuilder { built } = self;
        built
    }
}

/// Puts bytes behind a text.
fn put_bytes(mut text: Vec<u8>, bytes: &[u8]) -> Result<Vec<u8>, AllocError>
    ensures { IfOk result (λ new. new.items ≡ text.items ++ bytes.now) }
{
    text.extend_from_slice(bytes)?;
    Ok(text)
}

/// Puts a number behind a text.
fn put_digits(mut text: Vec<u8>, number: u64) -> Result<Vec<u8>, AllocError>
    ensures { IfOk result (λ new. new.items ≡ text.items ++ decimal number) }
{
    push_number(&mut text, number)?;
    Ok(text)
}

/// Puts a form behind a text.
fn put_part(text: Vec<u8>, made: Result<Vec<u8>, AllocError>) -> Result<Vec<u8>, AllocError>
    ensures { (part : List ℕ) → IfOk made (λ form. form.items ≡ part) → IfOk result (λ new. new.items ≡ text.items ++ part) }
{
    let part = made?;
    put_bytes(text, part.as_slice())
}

/// Puts words behind a text, as a string.
fn put_string(mut text: Vec<u8>, made: Result<Vec<u8>, AllocError>) -> Result<Vec<u8>, AllocError>
    ensures { (words : List ℕ) → IfOk made (λ given. given.items ≡ words) → IfOk result (λ new. new.items ≡ text.items ++ quoted words) }
{
    let words = made?;
    push_quoted(&mut text, words.as_slice())?;
    Ok(text)
}

/// Puts a list of forms behind a text.
fn put_parts(
    mut text: Vec<u8>,
    made: Result<Vec<Vec<u8>>, AllocError>,
) -> Result<Vec<u8>, AllocError>
    ensures { (parts : List (List ℕ)) → IfOk made (λ forms. map (λ form. form.items) forms.items ≡ parts)
        → IfOk result (λ new. new.items ≡ text.items ++ bracketed parts) }
{
    let parts = made?;
    push_list(&mut text, parts.as_slice())?;
    Ok(text)
}
