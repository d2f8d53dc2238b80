ghost use Rattle.std.specs.Prelude.{◌≡◌, ◌≢◌, ◌≤◌, [], length, map, count_by, IfOk, IfErr};
ghost use Rattle.sq_base.specs.Gives.{Gives};
ghost use Rattle.sq_lex.specs.Answers.{AreSentences};
ghost use Rattle.sq_lex.specs.Characters.{is_newline};
ghost use Rattle.sq_lex.specs.Faults.{IsFault};
ghost use Rattle.sq_lex.specs.Lex as spec;
ghost use Rattle.sq_lex.specs.Lexemes.{line_of};

use crate::LexFault;
use crate::piece::{Piece, piece_at};
use crate::sentences::Sentences;
use sq_base::{Seq, Text};
use sq_token::{Sentence, Token};
use std::alloc::Global;
use std::str;

/// Cuts a source into its sentences.
///
/// Of a source's faults the first is answered: one that is not UTF-8 before all others, then the
/// character, comment or number that comes first, and only then tokens behind the last stop.
pub fn lex(alloc: Global, bytes: &[u8]) -> Result<Seq<Sentence>, LexFault>
    ensures sentences { IfOk result (λ found. AreSentences bytes.now (map line_of found)) }
    ensures fault { IfErr result (λ e. e ≢ LexFault.NoMemory → IsFault bytes.now e) }
{
    match str::from_utf8(bytes) {
        Ok(text) => sentences(alloc, text),
        Err(e) => Err(LexFault::NotUtf8(e.valid_up_to())),
    }
}

fn sentences(alloc: Global, text: &str) -> Result<Seq<Sentence>, LexFault>
    ensures { Gives LexFault.NoMemory (map line_of) result
        (spec.cut_all text.now [] (spec.lexemes 0 0 text.now)) }
{
    let mut found = Sentences::new(alloc);
    let mut rest = text;
    let mut at = 0;
    let mut line = 1;
    'pieces: while !rest.is_empty() {
        match piece_at(rest) {
            Piece::Spacing(n) => {
                let (front, after) = rest.split_at(n);
                at += n;
                line += newlines(front);
                rest = after;
            }
            Piece::Token(kind, n) => {
                let (front, after) = rest.split_at(n);
                let text = Text::from_str(alloc, front)?;
                let token = Token {
                    kind,
                    text,
                    from: at,
                    to: at + n,
                };
                found.push(token, line)?;
                at += n;
                line += newlines(front);
                rest = after;
            }
            Piece::OpenComment => return Err(LexFault::OpenComment(at)),
            Piece::Wide => return Err(LexFault::NumberWide(at)),
            Piece::Bad => return Err(LexFault::BadChar(at)),
        }
    }
    found.finish()
}

fn newlines(text: &str) -> usize
    ensures value { result ≡ count_by is_newline text.now }
    ensures within { result ≤ length text.now }
{
    text.bytes().filter(|b| *b == b'\n').count()
}
