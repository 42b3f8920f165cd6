//! Imports: values unsealed as OpenSSL does it, parts that are joined, and each fault in its order.
use crate::{ImportFault, decide_import};
use key_attributes::{KeyRow, KeyValue, Uses};
use pad_steps::{ImportRequest, ImportSource, Verify};
use pad_words::{KeyName, Octets};
use std::alloc::Global;
use std::test::Fail;

/// A key-encrypting key by its parts, a sealed value, and the value. The values come from OpenSSL and its legacy provider:
/// `echo $sealed | xxd -r -p | openssl enc -d -nopad -provider legacy -provider default -des-ecb -K $key | xxd -p`, with
/// `-des-ede` and `-des-ede3` for keys of two and three parts.
const OPENSSL_VALUES: [(&[u64], &[u64], &[u64]); 12] = [
    (
        &[0x81A6_657B_623A_95F3],
        &[0x794A_018F_0EFE_5861],
        &[0x1F32_4DB1_5284_576A],
    ),
    (
        &[0xC65D_A9A4_3C2C_85F0],
        &[0x6873_6224_2966_E027],
        &[0x718A_6085_1BC0_111E],
    ),
    (
        &[0x336C_A82C_30EC_2836, 0x8BE3_3EB3_1CCE_7E70],
        &[0xF1CE_46C4_0611_1AFD],
        &[0xC6DE_7B7E_1855_E417],
    ),
    (
        &[0x14B7_DD3C_83FA_1CF1, 0x304B_982F_08F8_B4D4],
        &[0x001F_F64A_0D04_7A2D],
        &[0xD3C2_D8A5_88CF_E6CF],
    ),
    (
        &[0xEE3A_C7F3_3445_7A85, 0x6B2C_5254_4C0C_1977],
        &[0xC2D5_FA89_34F1_D497, 0x8D93_E860_09F9_2412],
        &[0xC7F4_64DE_B15A_823E, 0xAB83_F54D_1EFC_1549],
    ),
    (
        &[0x0948_042E_3768_2AD9, 0x5437_C491_EBFA_CD63],
        &[0xDB80_912C_A5A1_638F, 0xBCF4_C9CD_82C1_9E28],
        &[0xDB2B_3CE2_4DCE_5657, 0xA756_4BD3_5081_272D],
    ),
    (
        &[
            0x8C34_4A46_B819_6C1D,
            0x0B3D_418A_52AF_1EC0,
            0x2C99_28B8_E802_18E6,
        ],
        &[0x4CFD_CF27_DC02_3810],
        &[0x85B3_487D_C97E_7236],
    ),
    (
        &[
            0xC040_1385_8259_2C23,
            0x17C6_245B_F668_A5A6,
            0xF075_61F8_DFC5_64CD,
        ],
        &[0x316C_9DA9_ADDB_61B4],
        &[0x28DE_8878_5CF3_848A],
    ),
    (
        &[
            0x6D82_B573_50B0_4A87,
            0xE495_9AFC_7A30_F522,
            0x8E94_5804_97D6_DDD8,
        ],
        &[0xCC34_E1B6_F2FA_C356, 0xC5C6_DB85_0C9C_91E0],
        &[0x406B_4438_D956_F0EB, 0x5BC8_62B8_AAC3_4B4F],
    ),
    (
        &[
            0xE20A_27C6_A9BF_8838,
            0xB3B6_4A3F_E449_5418,
            0xFC96_AFB6_2F83_4658,
        ],
        &[0xA8DA_0CF2_33DD_7666, 0x12F7_36D9_0B2E_0F1D],
        &[0x71EB_AB2A_4412_3F9C, 0xF7C5_9D18_430C_D52F],
    ),
    (
        &[
            0xB7F9_EF8E_CF27_63B9,
            0x7610_545B_6D8E_B39B,
            0x1A2C_60BB_E6F5_7D3A,
        ],
        &[
            0xF5E5_C4D2_EC31_BD56,
            0x3EFE_7791_A086_A8F4,
            0xBBA1_750F_160D_7F0C,
        ],
        &[
            0xB555_A19D_44C1_9220,
            0xF405_F28A_7B8D_B9A4,
            0x3DE6_AD0A_70DC_70FD,
        ],
    ),
    (
        &[
            0xD82E_69DA_74F9_7E9C,
            0xA978_3BAA_FAFE_5CCC,
            0xF7D1_4D5F_0F12_1957,
        ],
        &[
            0x08BB_FB82_EF2E_8FD8,
            0x31EF_1245_BCEC_5D35,
            0x5389_973A_BC83_0751,
        ],
        &[
            0xA091_836F_D3F4_4667,
            0x9D35_75E2_A31F_97E8,
            0x4AC5_8BDC_0EA0_A0EB,
        ],
    ),
];

/// Where a value comes from.
#[derive(Clone, Copy)]
enum Comes {
    InClear(&'static [u8]),
    Sealed(&'static [u8]),
    FromBuffer,
}

/// An import, and what it makes: the source and the uses of the request; the value and the uses of the row that has the
/// name; the key-encrypting key; the part buffer; and the value of the new row, or the fault.
#[derive(Clone, Copy)]
struct Row {
    source: Comes,
    uses: u16,
    target: Option<(&'static [u8], u16)>,
    kek: Option<&'static [u8]>,
    part: Option<&'static [u8]>,
    answer: Result<&'static [u8], ImportFault>,
}

const EIGHT: &[u8] = &[0x01, 0x23, 0x45, 0x67, 0x89, 0xAB, 0xCD, 0xEF];

const OTHER_EIGHT: &[u8] = &[0x10, 0x10, 0x10, 0x10, 0x01, 0x01, 0x01, 0x01];

const JOINED_EIGHT: &[u8] = &[0x11, 0x33, 0x55, 0x77, 0x88, 0xAA, 0xCC, 0xEE];

const ZEROS: &[u8] = &[0; 8];
/// The zero block encrypted under the key of zeros.
const SEALED_ZEROS: &[u8] = &[0x8C, 0xA6, 0x4D, 0xE9, 0xC1, 0xB1, 0x23, 0xA7];

const SIXTEEN: &[u8] = &[0x5A; 16];

const ROWS: [Row; 20] = [
    // A value in clear, as it stands, and one that is sealed.
    Row {
        source: Comes::InClear(EIGHT),
        uses: 0x0002,
        target: None,
        kek: None,
        part: None,
        answer: Ok(EIGHT),
    },
    Row {
        source: Comes::Sealed(SEALED_ZEROS),
        uses: 0x0001,
        target: None,
        kek: Some(ZEROS),
        part: None,
        answer: Ok(ZEROS),
    },
    // A complete target is replaced, also by a first part.
    Row {
        source: Comes::InClear(EIGHT),
        uses: 0x0044,
        target: Some((OTHER_EIGHT, 0x0002)),
        kek: None,
        part: None,
        answer: Ok(EIGHT),
    },
    Row {
        source: Comes::InClear(SIXTEEN),
        uses: 0x0002,
        target: Some((OTHER_EIGHT, 0x0002)),
        kek: None,
        part: None,
        answer: Ok(SIXTEEN),
    },
    // A target under construction is joined, and goes on or is completed by the request's uses.
    Row {
        source: Comes::InClear(EIGHT),
        uses: 0x0044,
        target: Some((OTHER_EIGHT, 0x0044)),
        kek: None,
        part: None,
        answer: Ok(JOINED_EIGHT),
    },
    Row {
        source: Comes::InClear(EIGHT),
        uses: 0x0004,
        target: Some((OTHER_EIGHT, 0x0044)),
        kek: None,
        part: None,
        answer: Ok(JOINED_EIGHT),
    },
    Row {
        source: Comes::Sealed(SEALED_ZEROS),
        uses: 0x0004,
        target: Some((EIGHT, 0x0044)),
        kek: Some(ZEROS),
        part: None,
        answer: Ok(EIGHT),
    },
    Row {
        source: Comes::FromBuffer,
        uses: 0x0084,
        target: None,
        kek: None,
        part: Some(EIGHT),
        answer: Ok(EIGHT),
    },
    Row {
        source: Comes::FromBuffer,
        uses: 0x0004,
        target: Some((OTHER_EIGHT, 0x0084)),
        kek: None,
        part: Some(EIGHT),
        answer: Ok(JOINED_EIGHT),
    },
    // The part buffer is empty; other uses; the wrong source of a part.
    Row {
        source: Comes::FromBuffer,
        uses: 0x0084,
        target: None,
        kek: None,
        part: None,
        answer: Err(ImportFault::AccessDenied),
    },
    Row {
        source: Comes::InClear(EIGHT),
        uses: 0x0001,
        target: Some((OTHER_EIGHT, 0x0044)),
        kek: None,
        part: None,
        answer: Err(ImportFault::AccessDenied),
    },
    Row {
        source: Comes::FromBuffer,
        uses: 0x0004,
        target: Some((OTHER_EIGHT, 0x0044)),
        kek: None,
        part: Some(EIGHT),
        answer: Err(ImportFault::AccessDenied),
    },
    Row {
        source: Comes::InClear(EIGHT),
        uses: 0x0004,
        target: Some((OTHER_EIGHT, 0x0084)),
        kek: None,
        part: None,
        answer: Err(ImportFault::AccessDenied),
    },
    // Lengths: of no key; longer than the key-encrypting key; another than that of the target.
    Row {
        source: Comes::InClear(&[0]),
        uses: 0x0004,
        target: None,
        kek: None,
        part: None,
        answer: Err(ImportFault::InvalidKeyLength),
    },
    Row {
        source: Comes::InClear(&[0x11; 12]),
        uses: 0x0004,
        target: None,
        kek: None,
        part: None,
        answer: Err(ImportFault::InvalidKeyLength),
    },
    Row {
        source: Comes::Sealed(&[0x11; 64]),
        uses: 0x0004,
        target: None,
        kek: Some(SIXTEEN),
        part: None,
        answer: Err(ImportFault::InvalidKeyLength),
    },
    Row {
        source: Comes::Sealed(SIXTEEN),
        uses: 0x0004,
        target: None,
        kek: Some(EIGHT),
        part: None,
        answer: Err(ImportFault::InvalidKeyLength),
    },
    Row {
        source: Comes::InClear(SIXTEEN),
        uses: 0x0004,
        target: Some((OTHER_EIGHT, 0x0044)),
        kek: None,
        part: None,
        answer: Err(ImportFault::InvalidKeyLength),
    },
    // Other uses come before a wrong length, and parity is not looked at.
    Row {
        source: Comes::InClear(SIXTEEN),
        uses: 0x0001,
        target: Some((OTHER_EIGHT, 0x0044)),
        kek: None,
        part: None,
        answer: Err(ImportFault::AccessDenied),
    },
    Row {
        source: Comes::InClear(ZEROS),
        uses: 0x0002,
        target: None,
        kek: None,
        part: None,
        answer: Ok(ZEROS),
    },
];

fn bytes_of(alloc: Global, numbers: &[u64]) -> Result<Vec<u8>, Fail> {
    let mut bytes = Vec::new(alloc);
    for number in numbers {
        bytes.extend_from_slice(&number.to_be_bytes())?;
    }
    Ok(bytes)
}

fn value_of(bytes: Option<&[u8]>) -> Option<KeyValue> {
    KeyValue::new(bytes?)
}

fn source_of(alloc: Global, source: Comes) -> Result<ImportSource, Fail> {
    Ok(match source {
        Comes::InClear(bytes) => ImportSource::Clear(Octets::copy(alloc, bytes)?),
        Comes::Sealed(bytes) => {
            let name = KeyName::read(b"KEK").ok_or("a name")?;
            ImportSource::Sealed(name, Octets::copy(alloc, bytes)?)
        }
        Comes::FromBuffer => ImportSource::Part,
    })
}

fn target_of(target: Option<(&[u8], u16)>) -> Result<Option<KeyRow>, Fail> {
    let Some((value, uses)) = target else {
        return Ok(None);
    };
    Ok(Some(KeyRow {
        name: KeyName::read(b"KEY").ok_or("a name")?,
        value: KeyValue::new(value).ok_or("a value")?,
        uses: Uses::from_bits(uses).ok_or("uses")?,
    }))
}

#[test]
fn openssl_values(rt: HostRuntime) -> Result<(), Fail> {
    for (key, sealed, value) in OPENSSL_VALUES {
        let kek = KeyValue::new(&bytes_of(rt.alloc(), key)?).ok_or("a key")?;
        let sealed = Octets::of(bytes_of(rt.alloc(), sealed)?);
        let request = ImportRequest {
            name: KeyName::read(b"KEY").ok_or("a name")?,
            source: ImportSource::Sealed(KeyName::read(b"KEK").ok_or("a name")?, sealed),
            uses: 0x0001,
            verify: Verify::Nothing,
        };
        let Ok(row) = decide_import(&request, None, Some(&kek), None) else {
            return Err("a row".into());
        };
        assert!(rt; row.value.bytes() == bytes_of(rt.alloc(), value)?.as_slice());
    }
    Ok(())
}

#[test]
fn rows_and_faults(rt: HostRuntime) -> Result<(), Fail> {
    for (number, row) in ROWS.iter().enumerate() {
        let uses = Uses::from_bits(row.uses).ok_or("uses")?;
        let request = ImportRequest {
            name: KeyName::read(b"KEY").ok_or("a name")?,
            source: source_of(rt.alloc(), row.source)?,
            uses: uses.bits(),
            verify: Verify::Nothing,
        };
        let target = target_of(row.target)?;
        let (kek, part) = (value_of(row.kek), value_of(row.part));
        match decide_import(&request, target.as_ref(), kek.as_ref(), part.as_ref()) {
            Ok(new) => {
                assert!(rt; row.answer == Ok(new.value.bytes()), "{number}");
                assert!(rt; new.name.text() == b"KEY".as_slice(), "{number}");
                assert_eq!(rt; new.uses.bits(), row.uses);
            }
            Err(fault) => assert!(rt; row.answer == Err(fault), "{number}"),
        }
    }
    Ok(())
}
