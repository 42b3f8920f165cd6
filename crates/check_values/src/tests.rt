//! Check values of 16 random keys of each length.
//!
//! The answers come from OpenSSL and its legacy provider, as the first three bytes of
//! `echo $block | xxd -r -p | openssl enc -nopad -provider legacy -provider default -des-ecb -K $key | xxd -p`, with
//! `-des-ede` and `-des-ede3` for keys of two and three parts; the block is the first part of the key, or zeros.
use crate::check_value;
use key_attributes::KeyValue;
use pad_steps::Verify;
use std::alloc::{AllocError, Global};

/// A key by its parts, its check value of itself, and its check value of zeros.
const OPENSSL_CHECK_VALUES: [(&[u64], u32, u32); 48] = [
    (&[0x487F_4C77_6254_222B], 0x21_6AF2, 0xA7_0424),
    (&[0x7547_A513_E859_319B], 0x20_9BF0, 0xBC_2987),
    (&[0x54A8_81CA_EF36_BAE1], 0x63_D3A7, 0x1A_0141),
    (&[0x0E88_9F5D_D911_CCAE], 0x5A_9554, 0x81_8186),
    (&[0x5B9C_FA3D_4FC0_A5CB], 0x4A_34FD, 0x55_C097),
    (&[0x5C6B_588A_CED3_7741], 0x2B_255E, 0x49_B1A3),
    (&[0x91ED_1773_A03B_28A5], 0x67_7D79, 0xBD_0ED6),
    (&[0x63AA_34A7_F03A_E27D], 0xF2_09EF, 0x84_EB9D),
    (&[0x82E7_6CE6_7981_345A], 0xC6_F3B8, 0xDF_DC9B),
    (&[0x683D_F90B_64DB_262D], 0x05_856A, 0xBF_4003),
    (&[0xA4AC_F4F8_AC47_5F79], 0x27_EF21, 0x2F_B168),
    (&[0x302F_9221_FB9A_14E4], 0x8C_25B1, 0x19_E3A4),
    (&[0xE0F7_13DC_62DD_7E79], 0x68_3173, 0x01_B301),
    (&[0xCABE_7FA6_41B5_9629], 0xDE_C77E, 0x79_9231),
    (&[0x72BC_1086_0990_9BB5], 0xAB_375C, 0x8D_A467),
    (&[0xC74B_8584_FF1F_2966], 0x70_13E5, 0x38_81B8),
    (
        &[0xD236_A8A9_81F5_C38F, 0xD1E5_C5EE_DA41_2207],
        0x82_80B5,
        0xD3_D691,
    ),
    (
        &[0x3A05_B7F9_8F39_5FD5, 0xEFAD_C37B_BE5F_4738],
        0x46_AA21,
        0xAE_F715,
    ),
    (
        &[0x3D32_A3E8_C3F7_FF63, 0x9C48_A3B2_B9B6_0417],
        0x6E_9027,
        0x6B_A03A,
    ),
    (
        &[0xBB59_6638_54D6_4825, 0x6D9F_9B7E_CD2C_5595],
        0x14_3136,
        0x20_9A49,
    ),
    (
        &[0x50E5_981D_2028_171D, 0x62A6_4B45_B478_8BC6],
        0x7F_2AAB,
        0x5D_5AD6,
    ),
    (
        &[0x0D86_8D59_40AD_884B, 0x6C88_462C_6374_47C0],
        0xCE_271B,
        0x88_70B9,
    ),
    (
        &[0x9D85_00F6_CDA5_8FD2, 0xE5E4_1FDE_CEC8_EC88],
        0xE8_E2BE,
        0x8B_FEE5,
    ),
    (
        &[0x4A19_FD43_A059_BC5D, 0xA8DD_3CCD_F65A_3E66],
        0x43_BC4B,
        0xA2_BCFD,
    ),
    (
        &[0x08BE_AD99_2BDB_E3E6, 0x6D46_5D42_41FB_9061],
        0x25_087B,
        0x0B_2DBD,
    ),
    (
        &[0x6449_A334_7E19_E15D, 0x0244_89EB_7FDD_87FE],
        0x1E_1913,
        0x34_86EC,
    ),
    (
        &[0x47F8_523E_F10A_B804, 0xD478_47B7_8478_CF34],
        0x29_1616,
        0xD0_FC17,
    ),
    (
        &[0xBE5B_C7E5_2D14_236B, 0xE436_C8A9_3496_427D],
        0x3D_7519,
        0x88_B6AA,
    ),
    (
        &[0xC315_769E_8F81_1E24, 0x0189_7E59_E2D1_C8BA],
        0xAF_9FB4,
        0x3F_E808,
    ),
    (
        &[0x09CA_4054_0AE2_1077, 0x417E_25D5_CD91_3604],
        0xB8_336C,
        0x3C_8E00,
    ),
    (
        &[0xF378_C6C0_FCF8_4A46, 0xC73E_6C93_83EF_33F3],
        0xBC_77CF,
        0xBA_24B3,
    ),
    (
        &[0xE7BC_9340_7CE8_04F4, 0xAC59_F59F_B13D_E92F],
        0x78_3751,
        0xA2_1D44,
    ),
    (
        &[
            0x3C6F_A33E_3704_5DAE,
            0xE690_57C0_DFF9_FF43,
            0xFBB9_C6C4_F3E3_7C8B,
        ],
        0xF3_E8DE,
        0xD6_925A,
    ),
    (
        &[
            0xD2B4_00D0_D499_2729,
            0xE38C_613B_AB0D_7A27,
            0xB1F3_CCCF_69CC_E37E,
        ],
        0x21_F95C,
        0x7A_CAF7,
    ),
    (
        &[
            0xF0BD_BDD9_5F27_7336,
            0x6454_64FE_0CF2_1EA0,
            0xDF33_57AD_7D06_6753,
        ],
        0xB2_04DD,
        0xB2_EFCB,
    ),
    (
        &[
            0x3CCC_8C34_E3F3_74A4,
            0x34E4_BB0A_5C11_C5D4,
            0x0050_83AC_6055_46DA,
        ],
        0xBC_D8E4,
        0xC5_EA82,
    ),
    (
        &[
            0x811F_2FB2_1C1E_3010,
            0xCEBE_FFAD_D81B_985A,
            0x9CAC_5D3B_5672_D7E3,
        ],
        0xDF_8B0D,
        0x8F_A9FF,
    ),
    (
        &[
            0x8443_4427_65D5_E868,
            0xF011_C4C4_8F18_E74C,
            0x1522_95F2_546B_EE3B,
        ],
        0xB0_B20D,
        0x2E_01DD,
    ),
    (
        &[
            0x4616_3BD4_1DC4_9434,
            0x4210_DC61_1050_7610,
            0xC0AB_3110_CC5C_2D0E,
        ],
        0x73_98E2,
        0x34_7551,
    ),
    (
        &[
            0x0458_471B_FCC1_AA45,
            0x4868_BFCF_B27B_6622,
            0x01D7_F2CC_7595_954F,
        ],
        0xF5_E0D1,
        0xFE_538D,
    ),
    (
        &[
            0x5C65_BC98_3921_78ED,
            0x7217_3F64_9F9F_DE87,
            0x9545_E2F9_596D_0B0D,
        ],
        0xF8_3782,
        0xB8_EA59,
    ),
    (
        &[
            0x404E_EAD7_72E1_AB4D,
            0x4CCE_ABF8_0F90_9117,
            0xACF7_6E79_39F3_8925,
        ],
        0x74_9C85,
        0xC8_E922,
    ),
    (
        &[
            0x16F9_96FC_94A7_B0C5,
            0xEA21_17E9_7A2C_6B0A,
            0x3F2A_83C6_57FB_C525,
        ],
        0x29_4426,
        0xB4_B500,
    ),
    (
        &[
            0x7034_8255_3FCA_4E01,
            0xF18D_354C_CE15_5B5F,
            0x5049_7B17_955D_9D69,
        ],
        0x6F_406C,
        0x42_DC28,
    ),
    (
        &[
            0xE318_0984_5BE7_D87B,
            0x73BB_9B13_79CA_768D,
            0x2483_1C3B_1D6D_3F5A,
        ],
        0xB6_0242,
        0xB3_C626,
    ),
    (
        &[
            0xCA78_5214_D56F_C390,
            0xC322_A2FC_44F1_7C18,
            0xF5CE_7F88_6E57_E3CB,
        ],
        0xA3_C73C,
        0x1D_E73B,
    ),
    (
        &[
            0xB231_4F8B_6A76_D4B4,
            0x247F_6FA4_A96D_3852,
            0x635B_BAF9_B1EC_A7C3,
        ],
        0x6C_0784,
        0x03_78BF,
    ),
    (
        &[
            0x76FD_1CCE_4B83_95CC,
            0x6C2D_DC73_B872_CA33,
            0x7CC2_33DD_E1BA_A4A7,
        ],
        0x13_0F30,
        0xC3_7606,
    ),
];

fn key_bytes(alloc: Global, parts: &[u64]) -> Result<Vec<u8>, AllocError> {
    let mut bytes = Vec::new(alloc);
    for part in parts {
        bytes.extend_from_slice(&part.to_be_bytes())?;
    }
    Ok(bytes)
}

fn three_bytes(number: u32) -> Option<[u8; 3]> {
    let [_, first, second, third] = number.to_be_bytes();
    Some([first, second, third])
}

#[test]
fn openssl_check_values(rt: HostRuntime) -> Result<(), std::test::Fail> {
    for (parts, own, zero) in OPENSSL_CHECK_VALUES {
        let bytes = key_bytes(rt.alloc(), parts)?;
        let key = KeyValue::new(&bytes).ok_or("a key")?;
        assert_eq!(rt; check_value(&key, Verify::Own), three_bytes(own));
        assert_eq!(rt; check_value(&key, Verify::Zero), three_bytes(zero));
        assert_eq!(rt; check_value(&key, Verify::Nothing), None);
    }
    Ok(())
}
