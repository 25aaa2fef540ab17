// Runs the ciphers and the hash on published vectors and worked examples, and prints what it compared.
#![tactic(auto)]

use aes::Aes128;
use aes::sbox::sub;
use anyhow::anyhow;
use cipher::Cipher;
use cipher::words::{Block, Words};
use hash::compress::{Compression, DaviesMeyer, Fold, MatyasMeyerOseas, MiyaguchiPreneel};
use hash::digest::digest;
use hexadecimal::Hex;
use specimens::specimens_hold;
use speck::Speck128;

mod data;

use data::{CipherVector, HashExample};

fn main(rt: HostRuntime) -> anyhow::Result<()> {
    run(rt)
}

fn run(rt: HostRuntime) -> anyhow::Result<()> {
    specimens_hold();
    for vector in data::AES {
        encrypts(rt, &Aes128, &vector)?;
    }
    for vector in data::SPECK {
        encrypts(rt, &Speck128, &vector)?;
    }
    s_box(rt)?;
    hashes(rt, &Fold, &data::FOLD)?;
    hashes(rt, &DaviesMeyer { cipher: Aes128 }, &data::DM_AES)?;
    hashes(rt, &MatyasMeyerOseas { cipher: Aes128 }, &data::MMO_AES)?;
    hashes(rt, &MiyaguchiPreneel { cipher: Aes128 }, &data::MP_AES)?;
    hashes(rt, &DaviesMeyer { cipher: Speck128 }, &data::DM_SPECK)?;
    hashes(rt, &MatyasMeyerOseas { cipher: Speck128 }, &data::MMO_SPECK)?;
    hashes(rt, &MiyaguchiPreneel { cipher: Speck128 }, &data::MP_SPECK)
}

fn encrypts<E: Cipher<Key = Block>>(
    rt: HostRuntime,
    cipher: &E,
    vector: &CipherVector,
) -> anyhow::Result<()> {
    let (Some(key), Some(block)) = (Block::load(&vector.key, 0), Block::load(&vector.block, 0))
    else {
        return Err(anyhow!("a vector is too short"));
    };
    println!(rt; "{}", vector.name)?;
    compared(rt, cipher.encrypt(key, block), &vector.output)
}

fn hashes<C: Compression<Value = Block>>(
    rt: HostRuntime,
    c: &C,
    example: &HashExample,
) -> anyhow::Result<()> {
    println!(rt; "{}: hashes of 0, 8 and 24 bytes", example.name)?;
    let message = &data::MESSAGE;
    compared(rt, digest(c, &message[0..0]), &example.none)?;
    compared(rt, digest(c, &message[0..8]), &example.eight)?;
    compared(rt, digest(c, &message[0..24]), &example.twenty_four)
}

// Prints a block, if it is the one that is expected.
fn compared(rt: HostRuntime, found: Block, expected: &[u8; 16]) -> anyhow::Result<()> {
    let mut bytes = [0u8; 16];
    found.store(&mut bytes, 0);
    let digits = Hex(&bytes);
    if bytes != *expected {
        println!(rt; "{digits} differs")?;
        return Err(anyhow!("a block is not the one that is expected"));
    }
    println!(rt; "{digits} ok")?;
    Ok(())
}

fn s_box(rt: HostRuntime) -> anyhow::Result<()> {
    for (v, expected) in (0..=255u8).zip(data::SBOX) {
        if sub(v) != expected {
            println!(rt; "S differs at {v:02x}")?;
            return Err(anyhow!("an entry of S is not the one that is expected"));
        }
    }
    println!(rt; "S: 256 entries ok")?;
    Ok(())
}
