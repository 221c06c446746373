//! The spelling of symbols and of names: the tests that a reader of tokens needs too. A token is the longest run of characters up to
//! white space, a bracket, or one of `"`, `,`, `'`, `` ` `` and `;`.
ghost use Rattle.std.specs.Prelude.{◌≡◌};
ghost use Rattle.std.specs.List.{list_any};
ghost use Rattle.std.specs.Str.{chars};
ghost use Rattle.rdx_term.specs.Spelling.{ends_token, is_token, is_symbol_quote, begins_with_hash, begins_with_digit, begins_unsigned, begins_number, is_reserved, is_symbol_token, is_symbol_spelling, is_name};

/// A character before which a token ends: white space, a bracket, or one of `"`, `,`, `'`, `` ` `` and `;`.
pub fn ends_token(c: char) -> bool
    ensures { result ≡ ends_token c }
{
    c.is_whitespace()
        || matches!(c, '(' | ')' | '[' | ']' | '{' | '}')
        || matches!(c, '"' | ',' | '\'' | '`' | ';')
}

// A character before which a token ends stands in the text.
fn has_token_end(text: &str) -> bool
    ensures { result ≡ list_any ends_token (chars text.now) }
{
    text.chars().any(ends_token)
}

// The whole text is one token.
fn is_token(text: &str) -> bool
    ensures { result ≡ is_token text.now }
{
    !text.is_empty() && !has_token_end(text)
}

/// `|` or `\` stands in the text, with which Racket quotes other characters in a symbol.
pub fn has_symbol_quote(text: &[u8]) -> bool
    ensures { result ≡ list_any is_symbol_quote text.now }
{
    text.iter().any(|byte| *byte == b'|' || *byte == b'\\')
}

/// `#` stands first.
pub fn begins_with_hash(text: &[u8]) -> bool
    ensures { result ≡ begins_with_hash text.now }
{
    matches!(text, [b'#', ..])
}

// A digit stands first.
fn begins_with_digit(text: &[u8]) -> bool
    ensures { result ≡ begins_with_digit text.now }
{
    match text {
        [] => false,
        [first, ..] => first.is_ascii_digit(),
    }
}

// A digit stands first, or a point and then a digit.
fn begins_unsigned(text: &[u8]) -> bool
    ensures { result ≡ begins_unsigned text.now }
{
    match text {
        [] => false,
        [first, others @ ..] => {
            first.is_ascii_digit() || (*first == b'.' && begins_with_digit(others))
        }
    }
}

/// A digit stands first, or a point and then a digit, with or without a sign before it: an integer, or what is too much like a number to
/// be a symbol.
pub fn begins_number(text: &[u8]) -> bool
    ensures { result ≡ begins_number text.now }
{
    match text {
        [] => false,
        [first, others @ ..] => {
            begins_unsigned(text) || ((*first == b'+' || *first == b'-') && begins_unsigned(others))
        }
    }
}

/// The single point, or one of the numbers that are written in letters, `+inf.0`, `-inf.0` and `+nan.0`.
pub fn is_reserved(text: &str) -> bool
    ensures { result ≡ is_reserved text.now }
{
    text == "." || text == "+inf.0" || text == "-inf.0" || text == "+nan.0"
}

// This token is a symbol.
fn is_symbol_token(text: &str) -> bool
    ensures { result ≡ is_symbol_token text.now }
{
    let bytes = text.as_bytes();
    !has_symbol_quote(bytes)
        && !begins_with_hash(bytes)
        && !begins_number(bytes)
        && !is_reserved(text)
}

/// The whole text is one token, and it is a symbol: a name, or `hole`.
pub fn is_symbol(text: &str) -> bool
    ensures { result ≡ is_symbol_spelling text.now }
{
    is_token(text) && is_symbol_token(text)
}

/// The text is a symbol spelling other than `hole`, as that of a name is. Takes no memory.
pub fn is_spelling(text: &str) -> bool
    ensures { result ≡ is_name text.now }
{
    is_symbol(text) && text != "hole"
}
