// The edges of the padding, under Fold. The digests were worked out by another program.
use crate::compress::Fold;
use crate::digest::hash;
use crate::padding::padded_block;
use cipher::words::Block;
use refusal::Refusal;
use std::alloc::{AllocError, Global};
use std::process::Abort;
use std::test::Fail;

// The bytes 0 to 250, again and again.
fn counted(heap: Global, len: usize) -> Result<Vec<u8>, AllocError> {
    (0..len).map(|i| (i % 251) as u8).collect(heap)
}

// A message of so many bytes, how many blocks it has, and its digest.
#[derive(Clone, Copy)]
struct Edge {
    bytes: usize,
    blocks: usize,
    lo: u64,
    hi: u64,
}

fn hashes_at(rt: &impl Abort, heap: Global, edge: Edge) -> Result<(), Fail> {
    let bytes = edge.bytes;
    let message = counted(heap, bytes)?;
    let message = message.as_slice();
    assert!(rt;
        padded_block(message, edge.blocks).is_none(),
        "{bytes} bytes"
    );
    assert!(rt; edge.blocks > 0, "{bytes} bytes");
    assert!(rt;
        padded_block(message, edge.blocks - 1).is_some(),
        "{bytes} bytes"
    );
    let (lo, hi) = (edge.lo, edge.hi);
    assert_eq!(rt; hash(&Fold, message), Ok(Block { lo, hi }), "{bytes} bytes");
    Ok(())
}

// Rows stand a line each.
#[rattlefmt::skip]
const EDGES: [Edge; 8] = [
    Edge { bytes: 0, blocks: 1, lo: 0x0000000000000080, hi: 0x0000000000000000 },
    Edge { bytes: 7, blocks: 1, lo: 0x8006050403020100, hi: 0x0000000000000007 },
    Edge { bytes: 8, blocks: 2, lo: 0x0706050403020100, hi: 0x0000000000000088 },
    Edge { bytes: 15, blocks: 2, lo: 0x0706050403020100, hi: 0x800e0d0c0b0a0907 },
    Edge { bytes: 16, blocks: 2, lo: 0x0706050403020180, hi: 0x0f0e0d0c0b0a0918 },
    Edge { bytes: 23, blocks: 2, lo: 0x8710101010101010, hi: 0x0f0e0d0c0b0a091f },
    Edge { bytes: 24, blocks: 3, lo: 0x1010101010101010, hi: 0x0f0e0d0c0b0a0990 },
    Edge { bytes: 1_048_576, blocks: 65537, lo: 0x77707172737c7dfe, hi: 0x1415161710647576 },
];

#[test]
fn edges(rt: HostRuntime) -> Result<(), Fail> {
    for each in EDGES {
        hashes_at(&rt, rt.alloc(), each)?;
    }
    Ok(())
}

#[test]
fn too_long(rt: HostRuntime) -> Result<(), Fail> {
    let message = counted(rt.alloc(), 1_048_577)?;
    let refusal = Refusal::TooLong { input: 1 };
    assert_eq!(rt; hash(&Fold, message.as_slice()), Err(refusal));
    assert_eq!(rt; refusal.returned().number, 9);
    Ok(())
}
