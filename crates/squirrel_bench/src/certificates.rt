// A certificate of so many KiB, made, read and written.
use crate::fault::Fault;
use sq_base::{Seq, Text};
use sq_cert::{ReadFault, read, write};
use sq_step::Step;
use std::alloc::Global;

// The lines of a block of 16 steps, with written terms and places.
const STEPS: &str = "impi\nande 0\ncut f6/0/2 f4/0/2 f14/0/0 f15/0/0 f4/0/2 f15/0/0 f14/0/0\n\
    alle 3 i x4\nuse 2 n7/1 x0 f10/0/1 n3/0 @h12.40\nrew 5 < g\no12 a3/2 x0 x1 a4/1 x0 1\nhyp 2\n\
    exi t pred a2/2 x3 x17\nem find2 ieq b0 b1 n0/1 b0 f0/0/0\neprf l 1 f16/0/2 n4/0 n5/1 x2 n6/0\n\
    tind 4\nfact f10/0/1 f9/0/2 input x1 output pred x1\ntrans frame x2\nesel 0 1 2 3 4 5\ntrue\n";

/// Makes the text (`made`), reads it too (`read`), or also writes what was read (`written`).
pub fn turned(alloc: Global, word: &str, kib: u32) -> Result<u32, Fault> {
    let text = text(alloc, kib)?;
    match word {
        "made" => {}
        "read" => {
            let _ = blocks(alloc, text.as_slice())?;
        }
        "written" => {
            let written = copied(alloc, text.as_slice())?;
            if written.as_str().as_bytes() != text.as_slice() {
                return Err(Fault::Limit);
            }
        }
        _ => return Err(Fault::Usage),
    }
    Ok(kib)
}

fn blocks(alloc: Global, text: &[u8]) -> Result<Seq<(Text, Seq<Step>)>, Fault> {
    match read(alloc, text) {
        Ok(blocks) => Ok(blocks),
        Err(ReadFault::NoMemory) => Err(Fault::NoMemory),
        Err(_) => Err(Fault::Limit),
    }
}

fn copied(alloc: Global, text: &[u8]) -> Result<Text, Fault> {
    match read(alloc, text) {
        Ok(blocks) => Ok(write(alloc, blocks.as_slice())?),
        Err(ReadFault::NoMemory) => Err(Fault::NoMemory),
        Err(_) => Err(Fault::Limit),
    }
}

fn text(alloc: Global, kib: u32) -> Result<Vec<u8>, Fault> {
    let mut text = Vec::from_slice(alloc, b"squirrel certificate 1\n")?;
    let count = kib as usize * 1024 / (STEPS.len() + 10);
    for _ in 0..count {
        text.extend_from_slice(b"goal g 16\n")?;
        text.extend_from_slice(STEPS.as_bytes())?;
    }
    text.extend_from_slice(b"end\n")?;
    Ok(text)
}
