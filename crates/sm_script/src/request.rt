ghost use Rattle.std.specs.Prelude.{◌≡◌, [], ◌∷◌, IfOk, IfErr};
ghost use Rattle.sm_script.specs.Grammar.{arguments_fault};
ghost use Rattle.sm_script.specs.Lines.{request_with, IsRequestFault};
ghost use Rattle.sm_script.specs.declared.shape.Shape.TheVariants.{Key as KeyShape, Text};
ghost use Rattle.sm_script.specs.declared.shape.Shape.TheVariants.{Increment as IncrementShape, Limit};

use crate::argument::key;
use crate::fault::{LineFault, ParseFault};
use crate::number::{increment, number_between};
use crate::shape::{MAX_PAIRS, Shape};
use crate::word::Word;
use crate::words::Words;
use sm_service::bytes::Bytes;
use sm_service::request::Request;
use std::alloc::Global;

// Returns the request of a key.
fn key_request(alloc: Global, word: Word, mut words: Words) -> Result<Request, ParseFault>
    requires { arguments_fault (KeyShape ∷ []) words ≡ None }
    ensures ok { IfOk result (λ request. request_with (KeyShape ∷ []) word words.entry ≡ Ok request) }
    ensures err { IfErr result (λ fault.
        IsRequestFault fault (request_with (KeyShape ∷ []) word words.entry)) }
{
    let name = words.next().unwrap();
    match word {
        Word::Get => Ok(Request::Get(key(alloc, name)?)),
        Word::Del => Ok(Request::Del(key(alloc, name)?)),
        _ => Err(ParseFault::Line(LineFault::NotHere)),
    }
}

// Returns the request of a key and a text.
fn text_request(alloc: Global, word: Word, mut words: Words) -> Result<Request, ParseFault>
    requires { arguments_fault (KeyShape ∷ Text ∷ []) words ≡ None }
    ensures ok { IfOk result (λ request.
        request_with (KeyShape ∷ Text ∷ []) word words.entry ≡ Ok request) }
    ensures err { IfErr result (λ fault.
        IsRequestFault fault (request_with (KeyShape ∷ Text ∷ []) word words.entry)) }
{
    let name = words.next().unwrap();
    let text = words.text();
    match word {
        Word::Put => Ok(Request::Put(key(alloc, name)?, Bytes::new(alloc, text)?)),
        Word::Append => Ok(Request::Append(key(alloc, name)?, Bytes::new(alloc, text)?)),
        _ => Err(ParseFault::Line(LineFault::NotHere)),
    }
}

// Returns the request of a key and a number.
fn number_request(alloc: Global, word: Word, mut words: Words) -> Result<Request, ParseFault>
    requires { arguments_fault (KeyShape ∷ IncrementShape ∷ []) words ≡ None }
    ensures ok { IfOk result (λ request.
        request_with (KeyShape ∷ IncrementShape ∷ []) word words.entry ≡ Ok request) }
    ensures err { IfErr result (λ fault.
        IsRequestFault fault (request_with (KeyShape ∷ IncrementShape ∷ []) word words.entry)) }
{
    let name = words.next().unwrap();
    let amount = increment(words.next().unwrap()).unwrap();
    match word {
        Word::Inc => Ok(Request::Inc(key(alloc, name)?, amount)),
        _ => Err(ParseFault::Line(LineFault::NotHere)),
    }
}

// Returns the request of two keys and a limit.
fn range_request(alloc: Global, word: Word, mut words: Words) -> Result<Request, ParseFault>
    requires { arguments_fault (KeyShape ∷ KeyShape ∷ Limit ∷ []) words ≡ None }
    ensures ok { IfOk result (λ request.
        request_with (KeyShape ∷ KeyShape ∷ Limit ∷ []) word words.entry ≡ Ok request) }
    ensures err { IfErr result (λ fault.
        IsRequestFault fault (request_with (KeyShape ∷ KeyShape ∷ Limit ∷ []) word words.entry)) }
{
    let low = words.next().unwrap();
    let high = words.next().unwrap();
    let most = number_between(words.next().unwrap(), 0, MAX_PAIRS).unwrap();
    match word {
        Word::Scan => Ok(Request::Scan(key(alloc, low)?, key(alloc, high)?, most as u32)),
        _ => Err(ParseFault::Line(LineFault::NotHere)),
    }
}

/// Returns the request of a word and the words after it, which must be of these shapes.
pub(crate) fn request_with(
    alloc: Global,
    shapes: &[Shape],
    word: Word,
    words: Words,
) -> Result<Request, ParseFault>
    requires { arguments_fault shapes.now words ≡ None }
    ensures ok { IfOk result (λ request. request_with shapes.now word words.entry ≡ Ok request) }
    ensures err { IfErr result (λ fault.
        IsRequestFault fault (request_with shapes.now word words.entry)) }
{
    match shapes {
        [Shape::Key] => key_request(alloc, word, words),
        [Shape::Key, Shape::Text] => text_request(alloc, word, words),
        [Shape::Key, Shape::Increment] => number_request(alloc, word, words),
        [Shape::Key, Shape::Key, Shape::Limit] => range_request(alloc, word, words),
        _ => Err(ParseFault::Line(LineFault::NotHere)),
    }
}
