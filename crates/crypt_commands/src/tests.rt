//! Answers of CRYPT by published examples and OpenSSL, and each refusal.
//!
//! "Now is the time for all " and its answers are the example of FIPS 81. The others come from OpenSSL and its legacy
//! provider: `echo $bytes | xxd -r -p | openssl enc -nopad -provider legacy -provider default -des-ecb -K $key | xxd -p`,
//! with `-des-ede-cbc -iv $start` and `-des-ede3-ecb` for keys of two and three parts.
use crate::{CryptFault, CryptJob, CryptOut, run_crypt};
use key_attributes::KeyValue;
use pad_steps::{Algorithm, CryptRequest, Start};
use pad_words::{Block, Direction, KeyName, Octets};
use std::alloc::Global;
use std::test::Fail;

const TEXT: &[u8] = b"Now is the time for all ";

const KEY: &[u8] = &[0x01, 0x23, 0x45, 0x67, 0x89, 0xAB, 0xCD, 0xEF];

const TWO_PARTS: &[u8] = &[
    0x01, 0x23, 0x45, 0x67, 0x89, 0xAB, 0xCD, 0xEF, 0xFE, 0xDC, 0xBA, 0x98, 0x76, 0x54, 0x32, 0x10,
];

const THREE_PARTS: &[u8] = &[
    0x01, 0x23, 0x45, 0x67, 0x89, 0xAB, 0xCD, 0xEF, 0xFE, 0xDC, 0xBA, 0x98, 0x76, 0x54, 0x32, 0x10,
    0x11, 0x11, 0x11, 0x11, 0x11, 0x11, 0x11, 0x11,
];

/// A start value as numbers of 64 bits: none, in clear, or sealed under a key of eight bytes.
#[derive(Clone, Copy)]
enum Begins {
    Zero,
    Clear(u64),
    Sealed(u64, u64),
}

/// A request, the key, and the answer: bytes, a code, or a fault.
#[derive(Clone, Copy)]
struct Row {
    algorithm: Algorithm,
    direction: Direction,
    key: &'static [u8],
    start: Begins,
    pad: u8,
    body: &'static [u8],
    answer: Answer,
}

#[derive(Clone, Copy)]
enum Answer {
    Bytes(&'static [u8]),
    Code(u64),
    Fault(CryptFault),
}

fn run(alloc: Global, row: &Row) -> Result<Result<CryptOut, CryptFault>, Fail> {
    // Cipher feedback is refused before it comes here.
    if row.algorithm == Algorithm::Cfb {
        return Ok(Err(CryptFault::NoMemory));
    }
    let name = KeyName::read(b"K").ok_or("a name")?;
    let key = KeyValue::new(row.key).ok_or("a key")?;
    let (start, start_key) = match row.start {
        Begins::Zero => (Start::Zero, None),
        Begins::Clear(value) => (Start::Clear(Block(value.to_be_bytes())), None),
        Begins::Sealed(sealing, value) => (
            Start::Sealed(name.copy(), Block(value.to_be_bytes())),
            KeyValue::new(&sealing.to_be_bytes()),
        ),
    };
    let request = CryptRequest {
        algorithm: row.algorithm,
        direction: row.direction,
        key: name,
        start,
        pad: row.pad,
        body: Octets::copy(alloc, row.body)?,
    };
    Ok(run_crypt(alloc, &request, &key, start_key.as_ref()))
}

const ECB_TEXT: &[u8] = &[
    0x3F, 0xA4, 0x0E, 0x8A, 0x98, 0x4D, 0x48, 0x15, 0x6A, 0x27, 0x17, 0x87, 0xAB, 0x88, 0x83, 0xF9,
    0x89, 0x3D, 0x51, 0xEC, 0x4B, 0x56, 0x3B, 0x53,
];

// A row of ECB and of CBC of the text, under the key of one part.
const ECB: Row = Row {
    algorithm: Algorithm::Ecb,
    direction: Direction::Encrypt,
    key: KEY,
    start: Begins::Zero,
    pad: 0,
    body: TEXT,
    answer: Answer::Bytes(ECB_TEXT),
};

const SEALED_TEXT: &[u8] = &[
    0xE5, 0xC7, 0xCD, 0xDE, 0x87, 0x2B, 0xF2, 0x7C, 0x43, 0xE9, 0x34, 0x00, 0x8C, 0x38, 0x9C, 0x0F,
    0x68, 0x37, 0x88, 0x49, 0x9A, 0x7C, 0x05, 0xF6,
];

const CBC: Row = Row {
    algorithm: Algorithm::Cbc,
    start: Begins::Clear(0x1234_5678_90AB_CDEF),
    answer: Answer::Bytes(SEALED_TEXT),
    ..ECB
};

const MAC: Row = Row {
    algorithm: Algorithm::Mac,
    answer: Answer::Code(0x70A3_0640_CC76_DD8B),
    ..ECB
};

const RETAIL: Row = Row {
    algorithm: Algorithm::Retail,
    key: TWO_PARTS,
    answer: Answer::Code(0xA1C7_2E74_EA3F_A9B6),
    ..ECB
};

const NO_BYTES: Answer = Answer::Fault(CryptFault::LengthError);

const WRONG_KEY: Answer = Answer::Fault(CryptFault::InvalidKeyLength);

#[test]
fn answers(rt: HostRuntime) -> Result<(), Fail> {
    let rows = [
        ECB,
        CBC,
        MAC,
        RETAIL,
        // what was encrypted is decrypted again
        Row {
            direction: Direction::Decrypt,
            body: SEALED_TEXT,
            answer: Answer::Bytes(TEXT),
            ..CBC
        },
        // bytes are padded to whole blocks where they are encrypted
        Row {
            body: &[1, 2, 3, 4, 5, 6, 7],
            pad: 7,
            answer: Answer::Bytes(&[0x05, 0x37, 0x3D, 0x6C, 0x41, 0x2E, 0x16, 0xB7]),
            ..ECB
        },
        Row {
            key: TWO_PARTS,
            body: &[1, 2, 3, 4, 5, 6, 7, 8, 9],
            pad: 255,
            answer: Answer::Bytes(&[
                0x58, 0x00, 0x4A, 0xB5, 0x7E, 0xCE, 0xCC, 0x0B, 0x29, 0x57, 0x6E, 0xEB, 0xA8, 0xC5,
                0xDB, 0x0D,
            ]),
            ..CBC
        },
        Row {
            key: THREE_PARTS,
            body: b"Now is t",
            answer: Answer::Bytes(&[0x06, 0x51, 0x9A, 0xE0, 0x0A, 0x1B, 0xA0, 0x27]),
            ..ECB
        },
        // a start value of zeros, sealed under a key of zeros
        Row {
            start: Begins::Sealed(0, 0x8CA6_4DE9_C1B1_23A7),
            body: b"Now is t",
            answer: Answer::Bytes(&[0x3F, 0xA4, 0x0E, 0x8A, 0x98, 0x4D, 0x48, 0x15]),
            ..CBC
        },
        // the key of a code comes before the number of bytes
        Row {
            key: TWO_PARTS,
            body: b"",
            answer: WRONG_KEY,
            ..MAC
        },
        Row {
            key: KEY,
            answer: WRONG_KEY,
            ..RETAIL
        },
        Row {
            key: THREE_PARTS,
            answer: WRONG_KEY,
            ..RETAIL
        },
        Row {
            body: b"",
            answer: NO_BYTES,
            ..MAC
        },
        Row {
            body: b"",
            answer: NO_BYTES,
            ..ECB
        },
        Row {
            direction: Direction::Decrypt,
            body: b"Now is ",
            answer: NO_BYTES,
            ..ECB
        },
    ];
    for (place, row) in rows.iter().enumerate() {
        let same = match (run(rt.alloc(), row)?, row.answer) {
            (Ok(CryptOut::Bytes(bytes)), Answer::Bytes(wanted)) => bytes.items() == wanted,
            (Ok(CryptOut::Mac(code)), Answer::Code(wanted)) => code.0 == wanted.to_be_bytes(),
            (Err(fault), Answer::Fault(wanted)) => fault == wanted,
            _ => false,
        };
        assert!(rt; same, "row {place}");
    }
    Ok(())
}

#[test]
fn a_job_runs(rt: HostRuntime) -> Result<(), Fail> {
    let request = CryptRequest {
        algorithm: Algorithm::Ecb,
        direction: Direction::Encrypt,
        key: KeyName::read(b"K").ok_or("a name")?,
        start: Start::Zero,
        pad: 0,
        body: Octets::copy(rt.alloc(), TEXT)?,
    };
    let asked = request.copy(rt.alloc())?;
    let key = KeyValue::new(KEY).ok_or("a key")?;
    let job = CryptJob::new(rt.alloc(), 7, request, key.copy(), None);
    let Ok(done) = job.run() else {
        panic!(rt; "a job that was run")
    };
    assert!(rt; done.is_of(7, &asked, &key, None));
    assert!(rt; matches!(done.outcome(), Ok(CryptOut::Bytes(bytes)) if bytes.items() == ECB_TEXT));
    Ok(())
}
