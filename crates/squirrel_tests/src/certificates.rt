// Certificates of bytes that no case file can hold.
use sq_cert::{CertFault, ReadFault, read, read_step, write};
use std::test::Fail;

const SWAP: &str = "squirrel certificate 1\ngoal swap 5\nimpi\nande 0\nandi\nhyp 2\nhyp 1\nend\n";

#[test]
fn a_certificate_is_written_as_it_was_read(rt: HostRuntime) -> Result<(), Fail> {
    let alloc = rt.alloc();
    match read(alloc, SWAP.as_bytes()) {
        Ok(blocks) => assert_eq!(rt; write(alloc, blocks.as_slice())?.as_str(), SWAP),
        Err(fault) => panic!(rt; "{fault:?}"),
    }
    Ok(())
}

#[test]
fn other_bytes_are_refused(rt: HostRuntime) {
    let alloc = rt.alloc();
    let texts: [(&[u8], ReadFault); 3] = [
        (
            b"squirrel certificate 1\ngoal \xff 0\nend\n",
            ReadFault::BadStep(2),
        ),
        (
            b"squirrel certificate 1\ngoal a 1\ntrue\x80\nend\n",
            ReadFault::BadStep(3),
        ),
        (b"squirrel certificate 1\nend\n\x00", ReadFault::Trailing(3)),
    ];
    for (bytes, wanted) in texts {
        match read(alloc, bytes) {
            Ok(_) => panic!(rt; "{wanted:?}: read"),
            Err(fault) => assert_eq!(rt; fault, wanted),
        }
    }
    let lines: [&[u8]; 4] = [b"hyp 0\r", b"hyp 0\n", b"hyp\t0", b"hyp \xff"];
    for line in lines {
        match read_step(alloc, line) {
            Err(CertFault::BadStep) => {}
            other => panic!(rt; "{other:?}"),
        }
    }
}
