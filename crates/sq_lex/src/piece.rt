ghost use Rattle.std.specs.Prelude.{◌≡◌, ◌<◌, ◌≤◌, drop, length, chars, slice_index, nat_eq};
ghost use Rattle.std.specs.Prelude.{IsCharBoundary};
ghost use Rattle.std.specs.List.{prefix_len, starts_with};
ghost use Rattle.std.specs.Char.{is_ascii_digit};
ghost use Rattle.sq_token.specs.Kinds as kinds;
ghost use Rattle.sq_lex.specs.Characters as characters;
ghost use Rattle.sq_lex.specs.Pieces as spec;

use sq_token::{Punctuation, TokenKind, reserved_of};

/// What stands at the front of a text: spacing or a token of so many bytes, or a fault.
#[derive(Clone, Copy, Debug)]
pub enum Piece {
    Spacing(usize),
    Token(TokenKind, usize),
    OpenComment,
    Wide,
    Bad,
}

pub fn piece_at(text: &str) -> Piece
    ensures { result ≡ spec.piece text.now }
{
    let bytes = text.as_bytes();
    let Some((first, behind)) = bytes.split_first() else {
        return Piece::Bad;
    };
    if is_blank(*first) {
        return Piece::Spacing(1);
    }
    if opens(*first, head(behind)) {
        return comment(behind);
    }
    let name = name_len(text);
    if name > 0 {
        return word(text, name);
    }
    if first.is_ascii_digit() {
        return number(text, digits(bytes));
    }
    symbol(text)
}

fn is_blank(b: u8) -> bool
    ensures { result ≡ characters.is_blank b }
{
    b == b' ' || b == b'\t' || b == b'\r' || b == b'\n'
}

/// The first byte, 0 where there is none.
fn head(bytes: &[u8]) -> u8
    ensures { result ≡ slice_index bytes.now 0 }
{
    bytes.first().copied().unwrap_or(0)
}

fn opens(b: u8, c: u8) -> bool
    ensures { result ≡ characters.opens b c }
{
    b == b'(' && c == b'*'
}

fn closes(b: u8, c: u8) -> bool
    ensures { result ≡ characters.closes b c }
{
    b == b'*' && c == b')'
}

/// A comment, given what stands behind its first byte.
fn comment(behind: &[u8]) -> Piece
    ensures { result ≡ spec.commented (spec.comment_len 0 2 (drop 1 behind.now)) }
{
    let Some((_, inside)) = behind.split_first() else {
        return Piece::OpenComment;
    };
    match comment_len(inside) {
        Some(n) => Piece::Spacing(n),
        None => Piece::OpenComment,
    }
}

/// The length of the comment that goes on like this behind its opening.
fn comment_len(inside: &[u8]) -> Option<usize>
    ensures { result ≡ spec.comment_len 0 2 inside.now }
{
    let mut inner = 0usize;
    let mut len = 2usize;
    let mut rest = inside;
    'bytes: while let Some((b, after)) = rest.split_first() {
        let Some((c, beyond)) = after.split_first() else {
            return None;
        };
        if opens(*b, *c) {
            inner += 1;
            len += 2;
            rest = beyond;
        } else if closes(*b, *c) {
            if inner == 0 {
                return Some(len + 2);
            }
            inner -= 1;
            len += 2;
            rest = beyond;
        } else {
            len += 1;
            rest = after;
        }
    }
    None
}

fn is_start(c: char) -> bool
    ensures { result ≡ kinds.is_start c }
{
    unicode_ident::is_xid_start(c) || c == '_'
}

/// The bytes of the name at the front, 0 where there is none.
fn name_len(text: &str) -> usize
    ensures { result ≡ spec.name_len (chars text.now) }
{
    let mut rest = text.chars();
    match rest.next() {
        Some(c) if is_start(c) => c.len_utf8() + continued(rest.as_str()),
        _ => 0,
    }
}

/// The bytes of the characters at the front that continue a name.
fn continued(text: &str) -> usize
    ensures value { result ≡ spec.continued (chars text.now) }
    ensures within { result ≤ length text.now }
{
    let mut len = 0;
    let mut rest = text.chars();
    'chars: while let Some(c) = rest.next() {
        if !unicode_ident::is_xid_continue(c) {
            return len;
        }
        len += c.len_utf8();
    }
    len
}

fn word(text: &str, len: usize) -> Piece
    requires { IsCharBoundary text.now len }
    ensures { result ≡ spec.word len text.now }
{
    match reserved_of(text.split_at(len).0) {
        Some(r) => Piece::Token(TokenKind::Reserved(r), len),
        None => Piece::Token(TokenKind::Identifier, len),
    }
}

/// How many digits stand at the front.
fn digits(bytes: &[u8]) -> usize
    ensures { result ≡ prefix_len is_ascii_digit bytes.now }
{
    bytes.iter().take_while(|b| b.is_ascii_digit()).count()
}

fn number(text: &str, len: usize) -> Piece
    requires some { 0 < len }
    requires digits { len ≡ prefix_len is_ascii_digit text.now }
    ensures { result ≡ spec.digits len text.now }
{
    match text.split_at(len).0.parse::<u128>() {
        Ok(_) => Piece::Token(TokenKind::Number, len),
        Err(_) => Piece::Wide,
    }
}

/// The symbols, those of two bytes first, so that the longest one is found.
static SYMBOLS: [Punctuation; 21] = [
    Punctuation::Differs,
    Punctuation::AtMost,
    Punctuation::Implies,
    Punctuation::LeftArrow,
    Punctuation::And,
    Punctuation::Or,
    Punctuation::Repeat,
    Punctuation::Arrow,
    Punctuation::Dot,
    Punctuation::Comma,
    Punctuation::Colon,
    Punctuation::Semicolon,
    Punctuation::Equals,
    Punctuation::Less,
    Punctuation::Greater,
    Punctuation::OpenParenthesis,
    Punctuation::CloseParenthesis,
    Punctuation::OpenBracket,
    Punctuation::CloseBracket,
    Punctuation::Bar,
    Punctuation::At,
];

#[tactic(auto, unfolding(crate::specs::Pieces::symbol_at))]
fn symbol_at(text: &str) -> Option<Punctuation>
    ensures { result ≡ spec.symbol_at text.now }
{
    SYMBOLS.iter().copied().find(|mark| begins(text, *mark))
}

fn begins(text: &str, mark: Punctuation) -> bool
    ensures { result ≡ starts_with nat_eq text.now (kinds.punctuation_text mark) }
{
    text.starts_with(mark.text())
}

fn symbol(text: &str) -> Piece
    ensures { result ≡ spec.symbol (spec.symbol_at text.now) }
{
    match symbol_at(text) {
        Some(mark) => Piece::Token(TokenKind::Punctuation(mark), mark.text().len()),
        None => Piece::Bad,
    }
}
