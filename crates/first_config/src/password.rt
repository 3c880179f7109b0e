//! A fresh random password.

use crate::fault::InitFault;
use std::fs::{self, File, Files};
use std::io::Read;

/// Where the system gives random bytes.
const SOURCE: &str = "/dev/urandom";

/// Letters and digits that are not mistaken for each other, each as likely as any other: 32 of them.
const LETTERS: [u8; 32] = *b"abcdefghijkmnpqrstuvwxyz23456789";

/// How many letters it has: 80 bits, which nobody guesses.
const LENGTH: usize = 16;

/// A password of random letters.
pub fn random_password<R: Files<File = File> + AllocGlobal>(rt: &R) -> Result<String, InitFault> {
    let alloc = rt.alloc();
    let mut bytes = [0u8; LENGTH];
    let mut source = match fs::open(rt, SOURCE) {
        Ok(source) => source,
        Err(error) => return Err(InitFault::System(String::from_str(alloc, SOURCE)?, error)),
    };
    if let Err(error) = source.read_exact(&mut bytes) {
        return Err(InitFault::System(String::from_str(alloc, SOURCE)?, error));
    }
    let mut letters = Vec::new(alloc);
    // 256 is a multiple of 32, so each letter is as likely as any other
    for byte in &bytes {
        letters
            .push(LETTERS[(*byte % 32) as usize])
            .map_err(|_| InitFault::Memory)?;
    }
    match String::from_utf8(letters) {
        Ok(password) => Ok(password),
        Err(_) => Err(InitFault::NoText),
    }
}
