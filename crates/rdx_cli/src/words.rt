// The words of the command line.
ghost use Rattle.std.specs.Prelude.{◌≤◌, ◌↔◌, ◌∷◌, ℕ, IfSome, IfNone, IfOk, IsNone, IsTrue};
ghost use Rattle.rdx_cli.specs.Inside.Rows.{AreNumbers, AreSomeNumbers, IsCount, IsNoNumber, IsNumber, Reads};
ghost use Rattle.rdx_cli.specs.Words.{FitsNoRow, texts};

use itoa::Buffer;
use rdx_term::{NoMemory, is_spelling};
use std::alloc::Global;

/// What the words ask for.
#[derive(Clone, Copy)]
pub enum Row<'a> {
    /// To write the transcript of the file.
    Run,
    /// The same, where walks go by the choices that these words are.
    Step(&'a [String]),
    /// To run the workload with so many tests.
    Workload(u32),
    /// To write the transcript of the file with derivations.
    Why,
    /// To write the typeset text of the file.
    Typeset,
    /// To write the canonical text of its data.
    Format,
    /// To write all terms of this nonterminal of its last language up to a size.
    Terms(&'a str, u32),
}

// Whether this word is this number, of nine digits at most.
fn is_number(word: &str, number: u32) -> bool
    ensures { IsTrue result ↔ IsNumber word.now number }
{
    let mut buffer = Buffer::new();
    number < 1_000_000_000 && buffer.format(number) == word
}

// The number of nine digits at most that this word is, if it is one.
fn number_in(word: &str) -> Option<u32>
    ensures some { IfSome result (λ n. IsNumber word.now n) }
    ensures none { IfNone result (IsNoNumber word.now) }
{
    match word.parse::<u32>() {
        Ok(number) => is_number(word, number).then_some(number),
        Err(_) => None,
    }
}

// Whether these words are such numbers.
fn are_numbers(words: &[String]) -> bool
    ensures { IsTrue result ↔ AreSomeNumbers (texts words.now) }
{
    for word in words {
        if number_in(word.as_str()).is_none() {
            return false;
        }
    }
    true
}

/// The numbers that these words are.
pub fn numbers_in(alloc: Global, words: &[String]) -> Result<Vec<u64>, NoMemory>
    requires { AreSomeNumbers (texts words.now) }
    ensures { IfOk result (λ numbers. AreNumbers (texts words.now) numbers.items) }
{
    let mut numbers = Vec::new(alloc);
    for word in words {
        match number_in(word.as_str()) {
            Some(number) => numbers.push(u64::from(number))?,
            None => unreachable!(),
        }
    }
    Ok(numbers)
}

// The number from 1 to `most` that this word is, if it is one.
fn count_in(word: &str, most: u32) -> Option<u32>
    requires { most ≤ 2000 }
    ensures some { IfSome result (λ n. IsCount word.now most n) }
    ensures none { IfNone result ((n : ℕ) → IsCount word.now most n → ⊥) }
{
    match number_in(word) {
        Some(number) if (1..=most).contains(&number) => Some(number),
        Some(_) | None => None,
    }
}

// What these words ask for behind the first one, if they are a row of the table with it.
fn row_with<'a>(first: &str, others: &'a [String]) -> Option<Row<'a>>
    ensures row { IfSome result (λ row. Reads (first.now ∷ texts others.now) row) }
    ensures none { IfNone result (FitsNoRow (first.now ∷ texts others.now)) }
{
    match first {
        "run" if others.is_empty() => Some(Row::Run),
        "step" if are_numbers(others) => Some(Row::Step(others)),
        "workload" => match others {
            [word] => Some(Row::Workload(count_in(word.as_str(), 2_000)?)),
            _ => None,
        },
        "why" if others.is_empty() => Some(Row::Why),
        "typeset" if others.is_empty() => Some(Row::Typeset),
        "fmt" if others.is_empty() => Some(Row::Format),
        "terms" => match others {
            [nt, size] if is_spelling(nt.as_str()) => {
                Some(Row::Terms(nt.as_str(), count_in(size.as_str(), 40)?))
            }
            _ => None,
        },
        _ => None,
    }
}

/// What the words ask for, if they are a row of the table. It takes no memory.
pub fn row_of(words: &[String]) -> Option<Row<'_>>
    ensures row { IfSome result (λ row. Reads (texts words.now) row) }
    ensures none { IsNone result ↔ FitsNoRow (texts words.now) }
{
    let (first, others) = words.split_first()?;
    row_with(first.as_str(), others)
}
