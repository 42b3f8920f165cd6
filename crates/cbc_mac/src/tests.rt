use crate::{Mac, MacKind, cbc, ecb};
use des_core::{BadLength, Tdea};
use pad_words::{Block, Direction};
use std::alloc::{AllocError, Global};

/// What OpenSSL 3.0.19 answers for 64 keys, start values and messages of 0 to 200 bytes: of ECB the blocks joined by
/// exclusive or, each turned left by its place; of CBC the last block; the code by one key and that by two.
/// Message `i` has `200 * i / 63` bytes and a key of `8 * (i % 3 + 1)`; what they are, `Drawn` says. Made by:
///
/// run() { xxd -r -p | openssl enc -nopad -provider legacy -provider default "$@" | xxd -p -c 999; }
/// echo $padded | run -$name-ecb -K $key                    # des-ecb, des-ede or des-ede3-ecb by the key's length
/// echo $padded | run -$name-cbc -K $key -iv $start
/// single=$(echo 0000000000000000$(echo $padded | run -des-cbc -K $left -iv 0000000000000000)); single=${single: -16}
/// echo $single | run -des-ecb -d -K $right | run -des-ecb -K $left
const OPENSSL_ANSWERS: [[u64; 4]; 64] = [
    [
        0x0000000000000000,
        0x66B61AE97F2099B4,
        0x0000000000000000,
        0xF519D3A3A6264320,
    ],
    [
        0xFE2B9253E605BDA8,
        0xFB7CD514016FE584,
        0x91CA541B7BED3FFC,
        0xBC8DBC58B86C4DE7,
    ],
    [
        0x95309DF9FB4CE69D,
        0x40A5751F558D1A73,
        0xCB1B3838406C24DB,
        0xCA05A186FFB4152A,
    ],
    [
        0xB298E91FC24BDED0,
        0x46D3A2D44F572258,
        0x4BF98E9B0878A4CB,
        0x24A700591719EFCF,
    ],
    [
        0x61552AE44D749AA4,
        0x8F2AD009E7B05868,
        0x476865CF1ED9B78B,
        0x0961AFCF36DF4EDF,
    ],
    [
        0x5830252BD0B83EC9,
        0x5C32320A257D9C19,
        0xA842DBBCEA935361,
        0xB0E0E32AA69D6563,
    ],
    [
        0x04C5AA4DA48EEE30,
        0x0397843E349BE30D,
        0xB3E0E72CCAF3E9BE,
        0xAC99E034644F88E6,
    ],
    [
        0x44AC99EE4DA6E1F8,
        0xA3A4F1086C3FD0C5,
        0x9416AD2354DA63EA,
        0x835D77F84C46D05A,
    ],
    [
        0x6D1C58227B5104B4,
        0x04F012A5F9060206,
        0x2573CAFDE2A4CC6C,
        0x3FB224D590CF166C,
    ],
    [
        0xBE5485CE7CABEBDD,
        0x2F4C286A64E95D51,
        0x671061A558D681B7,
        0x3C44DA38E39B4DA8,
    ],
    [
        0xE9FAD8790B6753F6,
        0x0C87F73F2257B04D,
        0xFB3AF4FF26EED910,
        0x4000295D6513692F,
    ],
    [
        0x481BACE597B72406,
        0x0A1CC71A23DCD3DC,
        0x7B314FB6BFBCD890,
        0x36AFF9230DA4454F,
    ],
    [
        0x76F092E39E2D2ACE,
        0x44F57E03B8641D01,
        0x65AF60CE1FD69424,
        0x2226B357C6859A46,
    ],
    [
        0xBF92CB529455FC9D,
        0xC343A2C0E0ACC57A,
        0x4BAB77940AA3D7E0,
        0x1D4E16F5971915AD,
    ],
    [
        0x6228C5B0ED8359A7,
        0xFF9CD6925640388A,
        0x1CDBDADFB8F29910,
        0x6E36DE29CC9E519B,
    ],
    [
        0xC8E3FCEC30E0C45A,
        0x49C22A5B7F092513,
        0x2184A98C2D4BFDFA,
        0xC44AD6A82745DBA6,
    ],
    [
        0xB86D71877FE54819,
        0x2726BBCF20E06C5A,
        0xFDD9C6EF08FD7337,
        0xB01354CE74106759,
    ],
    [
        0x34DE0FC14B023493,
        0xDBB61C9F61C822AA,
        0xD7AA60D94D45CBFA,
        0x4922CCD86731FD7A,
    ],
    [
        0xB39FD07AE57D0507,
        0x908D32ADC1DA1F7C,
        0x52C7FF715FB7B5E0,
        0x496D9184CEC8BDD4,
    ],
    [
        0x9287BAB058128C49,
        0x1774CC7402C29E43,
        0xB865CE979EB5C505,
        0x4F9A06E362FD9592,
    ],
    [
        0x782E7638D6DA949E,
        0xE364EC49E04E228E,
        0xECE0E4771BFD1C3E,
        0x73D6A2BE41B31EED,
    ],
    [
        0xFF9B4466FD60BAEE,
        0x7862F24EBF5E2F55,
        0x1E7EC0DC1AA5BB1F,
        0x80A174937D844223,
    ],
    [
        0xE37E2946ABA1F7DF,
        0x5E6CA2D003207D81,
        0xBE4E88F5493BBD39,
        0x75FF8D36B74D397C,
    ],
    [
        0x3394539DB0E67B36,
        0x60E07E0D9FF7B24A,
        0xE8A9CAB4844054E7,
        0xB5F8E497CE08C48B,
    ],
    [
        0xDD2691481D88DE59,
        0xBC39DAACEE46D0E8,
        0xC80D1E71B985AF98,
        0x979E50C409B7AEF2,
    ],
    [
        0xAAB7080510DDC1A2,
        0x394ECDF61F68A945,
        0x634AD94B1E5D9332,
        0x22CF1CBFDC99504A,
    ],
    [
        0x6300B93C273E0C73,
        0x4E654D825B4E81AD,
        0xC509EEB68B980648,
        0xD24D3C5597D089D7,
    ],
    [
        0x7A0E8D7861B287E2,
        0xB44CB6769C09C33A,
        0x4FC3D0FA335AF4D5,
        0x9BF59D4AFA1FEA51,
    ],
    [
        0x0C1D7B5F1ED4792A,
        0x7C9C8A8534EE27D0,
        0xE4679553738D5BD9,
        0x3576DA48988BBC3A,
    ],
    [
        0xD3A81163943D8D63,
        0x7AAD11AE92859C5D,
        0x8363D4A50F1F8340,
        0x97E80FCA163A3BBB,
    ],
    [
        0x0F07B7CF14143E19,
        0xAFCD3367B0FCD94F,
        0xC3061FDFE9C23796,
        0xBBEE7F0900389587,
    ],
    [
        0x21657D07F153E8B2,
        0x1F4ADA44DCEE1592,
        0xDFBD150364AC335E,
        0x3424FC688DFD3A80,
    ],
    [
        0xDC43566BA5FF1FBF,
        0x311C88FC07FEC494,
        0x0E39B88C07D4AB11,
        0xAEC7A53B32D52CAF,
    ],
    [
        0xBBE014B2C9661290,
        0x689FD88F6E699CC7,
        0xCAEF0F115AE002F6,
        0xA4FFA306BA7852A2,
    ],
    [
        0x50ABC7E9E99A53A3,
        0x536C0D0DF39BFFE1,
        0xAD6A5D80D4B965FC,
        0x9343A41505D455EC,
    ],
    [
        0xE468792491885183,
        0x9E667DC78F665617,
        0x972B0F92A1DB9D0F,
        0x37F923B8557903C7,
    ],
    [
        0x0D19462F06C4E4A3,
        0xA0333824E1D616BC,
        0xC971467BD0BCEBFB,
        0xF9C8ACC8C73FF52C,
    ],
    [
        0xC3B65F66AB8B5D5E,
        0x972335D6BE6347D4,
        0x8B5BAD8945EF4530,
        0x7A85C6A12BB85ED8,
    ],
    [
        0x6D407BFB1228D443,
        0xB2E0272FE9816571,
        0x7E4FE13E68972331,
        0xC3FDFD4AC42DB42F,
    ],
    [
        0x8FEDF8B0952AD9D6,
        0xE06067131873F145,
        0x10E85FB578F0D421,
        0x81A627AA610CAA82,
    ],
    [
        0xD2E55D00CF88D963,
        0x7AFAA14935ABA969,
        0x205EA213796F59B3,
        0xD61707C3AC477A56,
    ],
    [
        0xBA53A4DD5EB6F03D,
        0x43D69A073CFC8F62,
        0xEE3B6CE3419EA3EB,
        0x0FB85DE95BF2BD28,
    ],
    [
        0x5375EB19EF8BE587,
        0x72C20CD5BD312DB3,
        0xB51F171E35D49F68,
        0x48F5BCE4973DAEC7,
    ],
    [
        0x26A23B007FDE5D79,
        0x98B8397E64AD77E7,
        0xBD2AD27D46C71A63,
        0xC487C22F7689C4A7,
    ],
    [
        0x949B8C96CF087AB2,
        0x12B389BC784802D5,
        0xE7B2C9F76C4931BB,
        0x7C7C0512C523C639,
    ],
    [
        0xBA84245D08E8FAF5,
        0x7E610241F7D9675B,
        0x69BCF8385EE45C28,
        0x6739EF1357D90465,
    ],
    [
        0x3F14044CC48BE8B0,
        0xF0CE91705773FE25,
        0x0608C7A52DF7F29D,
        0x82D650CF87C86689,
    ],
    [
        0x5693749D6869BE5A,
        0xBFF9468FFA3820B3,
        0x329681C16D7A5B49,
        0xC6D8A524A6500793,
    ],
    [
        0x89363C1AE05C38D1,
        0xB9645A0A5BB3B6F5,
        0xC9E31A260E1DE8B5,
        0xE6228E39B03B6425,
    ],
    [
        0x1947D3A7A2660459,
        0x0A5E771A4EA50BFB,
        0xC4207C9FE159EF33,
        0x93C62A7F5109938E,
    ],
    [
        0x6C0E6D7370198EA5,
        0x1D81488027525774,
        0xDA9D8D1AD2D680A5,
        0x968249AFE410D8C1,
    ],
    [
        0x0FFD35D6A383F0C5,
        0xBE9B9AB93E315468,
        0x4D2565866DD292D6,
        0x2B55E2D4AC9DB512,
    ],
    [
        0x0373FECD15BE02B2,
        0x4A8248926811F2E9,
        0x95ABB7483858F11D,
        0x740596BF3A7CC139,
    ],
    [
        0xC162632AA168FCA6,
        0x968865F1406099A7,
        0xA7482640C76069AF,
        0x9B98F38C4BDB4FCD,
    ],
    [
        0x471A45F372DD80B4,
        0xD5B781E3B7699ABC,
        0x20AFF469CCBC869C,
        0x541A4DAA0170EFF4,
    ],
    [
        0x82CFFE339979E3D6,
        0x87EC8C7AB3FEEC8E,
        0x55A3D31F92D2406D,
        0xD930514F43B80A55,
    ],
    [
        0x7617CFE69E9C1921,
        0x649079436C8F4EC9,
        0x73FC88CDB083A7FC,
        0xC14D94ACF2566349,
    ],
    [
        0x984ECCA4F821C487,
        0x3653A6EABD65834E,
        0x4364872900294110,
        0x882EB98A36D75088,
    ],
    [
        0xD9ADE7A9822ED7D1,
        0x78638842A3A1E89B,
        0x3D317A4F1D5DC822,
        0x667F9EBDB0CC405E,
    ],
    [
        0x8D69DB038B11AEBC,
        0x041DF9E9957D90D9,
        0x964EC083B0019A21,
        0xD8E3F659932F10FF,
    ],
    [
        0xEE6457ED43A2603C,
        0x9B7ADF46A6F58878,
        0x4DF7BF6C6BA4E532,
        0x7C56637B11B064CB,
    ],
    [
        0x40E5817DCC733897,
        0xE00CF39E1C419AA0,
        0x706AC98EF9507C5B,
        0xA4BC982E7AAF11C1,
    ],
    [
        0x4CA798D8DB07D90A,
        0xB5266A7C12A0B915,
        0x2280410E9BE35D9E,
        0x9CE1AD8350E867B9,
    ],
    [
        0x367057F8CD96862F,
        0xE3FC6129CA2956B3,
        0x4197D802093C9AD7,
        0xB29D4EA0478B84C6,
    ],
];

/// Numbers that are as good as random: each is a step of a linear congruential generator.
#[derive(Drop)]
struct Numbers {
    state: u64,
}

impl Numbers {
    fn next(&mut self) -> u64 {
        let grown = self.state.wrapping_mul(6_364_136_223_846_793_005);
        self.state = grown.wrapping_add(1_442_695_040_888_963_407);
        self.state
    }
}

/// What is drawn for a row, in this order: three parts of a key, a start value, two halves of the key of a code, a padding
/// byte (the first of a number), and 25 numbers of text.
#[derive(Drop)]
struct Drawn {
    key: [u64; 3],
    start: u64,
    left: u64,
    right: u64,
    pad: u8,
    text: [u64; 25],
}

fn draw(row: usize) -> Drawn {
    let mut numbers = Numbers { state: row as u64 };
    let key = [numbers.next(), numbers.next(), numbers.next()];
    let start = numbers.next();
    let left = numbers.next();
    let right = numbers.next();
    let [pad, ..] = numbers.next().to_be_bytes();
    let mut text = [0; 25];
    for place in 0..25 {
        text[place] = numbers.next();
    }
    Drawn {
        key,
        start,
        left,
        right,
        pad,
        text,
    }
}

/// Blocks joined by exclusive or, each turned left by its place.
fn joined(bytes: &[u8]) -> u64 {
    let mut sum = 0;
    for (place, part) in bytes.chunks(8).enumerate() {
        sum ^= number(part).rotate_left((place % 64) as u32);
    }
    sum
}

/// The number of the first eight bytes; 0 where there are fewer.
fn number(bytes: &[u8]) -> u64 {
    let mut block = [0; 8];
    if bytes.len() >= 8 {
        block.copy_from_slice(&bytes[..8]);
    }
    u64::from_be_bytes(block)
}

fn bytes_of(alloc: Global, numbers: &[u64]) -> Result<Vec<u8>, AllocError> {
    let mut bytes = Vec::new(alloc);
    for number in numbers {
        bytes.extend_from_slice(&number.to_be_bytes())?;
    }
    Ok(bytes)
}

fn block(number: u64) -> Block {
    Block(number.to_be_bytes())
}

/// ECB of whole blocks; other bytes stay.
fn in_ecb(key: &Tdea, way: Direction, bytes: &mut [u8]) {
    if bytes.len() % 8 == 0 {
        ecb(key, way, bytes);
    }
}

/// CBC of whole blocks; other bytes stay.
fn in_cbc(key: &Tdea, way: Direction, start: u64, bytes: &mut [u8]) {
    if bytes.len() % 8 == 0 {
        cbc(key, way, block(start), bytes);
    }
}

/// The code of a message that is fed in pieces of `size` bytes, the last of what is left.
fn code(kind: MacKind, key: &[u8], message: &[u8], size: usize, pad: u8) -> Result<u64, BadLength> {
    let mut mac = Mac::new(kind, key)?;
    for piece in message.chunks(size.max(1)) {
        mac.feed(piece);
    }
    Ok(u64::from_be_bytes(mac.end(pad).0))
}

/// The message of a row, padded to whole blocks.
fn padded(alloc: Global, row: usize, of: &Drawn) -> Result<Vec<u8>, AllocError> {
    let mut bytes = bytes_of(alloc, &of.text)?;
    let length = message_length(row);
    bytes.truncate(length);
    bytes.resize(length.saturating_add((8 - length % 8) % 8), of.pad)?;
    Ok(bytes)
}

fn message_length(row: usize) -> usize {
    row.min(63) * 200 / 63
}

#[test]
fn openssl_answers_of_modes(rt: HostRuntime) -> Result<(), std::test::Fail> {
    for (row, [by_ecb, by_cbc, _, _]) in OPENSSL_ANSWERS.iter().enumerate() {
        let of = draw(row);
        let mut key = bytes_of(rt.alloc(), &of.key)?;
        key.truncate(8 * (row % 3 + 1));
        let tdea = Tdea::new(&key)?;
        let plain = padded(rt.alloc(), row, &of)?;
        let mut buf = padded(rt.alloc(), row, &of)?;
        in_ecb(&tdea, Direction::Encrypt, &mut buf);
        assert_eq!(rt; joined(&buf), *by_ecb, "row {row}");
        in_ecb(&tdea, Direction::Decrypt, &mut buf);
        assert!(rt; buf.as_slice() == plain.as_slice(), "row {row}");
        in_cbc(&tdea, Direction::Encrypt, of.start, &mut buf);
        let last = buf.chunks(8).last().map_or(of.start, number);
        assert_eq!(rt; last, *by_cbc, "row {row}");
        in_cbc(&tdea, Direction::Decrypt, of.start, &mut buf);
        assert!(rt; buf.as_slice() == plain.as_slice(), "row {row}");
    }
    Ok(())
}

#[test]
fn openssl_answers_of_codes(rt: HostRuntime) -> Result<(), std::test::Fail> {
    for (row, [_, _, by_one, by_two]) in OPENSSL_ANSWERS.iter().enumerate() {
        let of = draw(row);
        let key = bytes_of(rt.alloc(), &[of.left, of.right])?;
        let left = bytes_of(rt.alloc(), &[of.left])?;
        let mut message = bytes_of(rt.alloc(), &of.text)?;
        message.truncate(message_length(row));
        for size in [1, 3, 7, 8, 11, 64, 200] {
            let single = code(MacKind::Single, &left, &message, size, of.pad)?;
            assert_eq!(rt; single, *by_one, "row {row} by {size}");
            let retail = code(MacKind::Retail, &key, &message, size, of.pad)?;
            assert_eq!(rt; retail, *by_two, "row {row} by {size}");
        }
    }
    Ok(())
}

/// The example of FIPS 81, and the codes of its text.
#[test]
fn now_is_the_time(rt: HostRuntime) -> Result<(), std::test::Fail> {
    let left = 0x0123456789ABCDEF_u64.to_be_bytes();
    let tdea = Tdea::new(&left)?;
    let mut text = *b"Now is the time for all ";
    cbc(
        &tdea,
        Direction::Encrypt,
        block(0x1234567890ABCDEF),
        &mut text,
    );
    let sealed = bytes_of(
        rt.alloc(),
        &[0xE5C7CDDE872BF27C, 0x43E934008C389C0F, 0x683788499A7C05F6],
    )?;
    assert!(rt; text.as_slice() == sealed.as_slice());
    let text = b"Now is the time for all ";
    assert_eq!(rt;
        code(MacKind::Single, &left, text, 24, 0)?,
        0x70A30640CC76DD8B
    );
    let key = bytes_of(rt.alloc(), &[0x0123456789ABCDEF, 0xFEDCBA9876543210])?;
    assert_eq!(rt;
        code(MacKind::Retail, &key, text, 24, 0)?,
        0xA1C72E74EA3FA9B6
    );
    Ok(())
}

#[test]
fn key_lengths(rt: HostRuntime) {
    let bytes = [0x5A; 32];
    for length in [0, 7, 8, 9, 15, 16, 17, 23, 24, 25, 32] {
        assert_eq!(rt;
            Mac::new(MacKind::Single, &bytes[..length]).is_ok(),
            length == 8,
            "{length}"
        );
        assert_eq!(rt;
            Mac::new(MacKind::Retail, &bytes[..length]).is_ok(),
            length == 16,
            "{length}"
        );
    }
}
