use crate::{Tdea, des_decrypt, des_encrypt};
use pad_words::Block;
use std::alloc::{AllocError, Global};

fn block(number: u64) -> Block {
    Block(number.to_be_bytes())
}

/// The published answers of `laws::known_answers`, of the code.
#[test]
fn known_answers(rt: HostRuntime) {
    let answers = [
        (0x133457799BBCDFF1, 0x0123456789ABCDEF, 0x85E813540F0AB405),
        (0x0E329232EA6D0D73, 0x8787878787878787, 0x0000000000000000),
        (0x0000000000000000, 0x0000000000000000, 0x8CA64DE9C1B123A7),
        (0x0123456789ABCDEF, 0x4E6F772069732074, 0x3FA40E8A984D4815),
    ];
    for (key, plain, cipher) in answers {
        assert_eq!(rt; des_encrypt(block(key), block(plain)), block(cipher));
        assert_eq!(rt; des_decrypt(block(key), block(cipher)), block(plain));
    }
}

/// Keys, plain blocks and what OpenSSL 3.0.19 answers. Keys and blocks are the beginnings of digests. Made by:
///
/// for i in $(seq 1 32); do
///     key=$(printf 'key %d' $i | openssl dgst -sha256 -r | cut -c 1-16)
///     plain=$(printf 'block %d' $i | openssl dgst -sha256 -r | cut -c 1-16)
///     cipher=$(printf $plain | xxd -r -p |
///         openssl enc -des-ecb -nopad -K $key -provider legacy -provider default | xxd -p)
///     echo "(0x${key^^}, 0x${plain^^}, 0x${cipher^^}),"
/// done
const OPENSSL_ANSWERS: [(u64, u64, u64); 32] = [
    (0x227BA5F2C6C9109F, 0xCABDBDFA02C612A9, 0xD0D6E8251500B917),
    (0x08F225FE08E94A5B, 0x3C2001AACCEAB201, 0xD2CEBA2C797D2D5A),
    (0x3D3EE11C2FBF7F6A, 0x567744AE5CD2F67A, 0x254629445533E2A4),
    (0xA1788CE1D89FE8B4, 0x8E6BC5AA44A341CC, 0x4F2CBD7F166ED341),
    (0x4FEC9C05B7F6DB9C, 0x159974C0F53FF1C4, 0x1081147B37CD8C89),
    (0xB7A7F761815E89D6, 0xA56E2A48B9D79B3B, 0xC437556C4EB22941),
    (0x2178BF21A7BEA99A, 0x40572D2357D261B7, 0x9CE9FCF8E90F5D2A),
    (0xBD083ACCBFA2ED57, 0x7C0021D44FCA8786, 0x25B056FEC384C120),
    (0x4896D6E793E5777F, 0x23636F2018D304A7, 0x370BA1439BDA501A),
    (0x0DD1C1139F9B0C2C, 0x575F32B08CCC5D53, 0xEFC1A3C4116BE3D1),
    (0xAF18F4EBAE5AD263, 0x2EB248DFD5C7A836, 0x9159593BDC71B54C),
    (0x3D977BB56C0BC91B, 0x3E453B21CB84F6B8, 0xAB20699919D95AD9),
    (0xCF4B51195EECBA07, 0xF65EEDF655F2029F, 0x2B5F4F4DAF00FD0A),
    (0x1C47270FA29E1B06, 0xB708DC768A31FFC2, 0x89EC2BF6A64CD13E),
    (0x40A178B3C1BEE408, 0x686AADFBEBE041C8, 0x822C3B785C7B0E43),
    (0x7B2B3DDA3B07424E, 0xB1509CBF9C67A65B, 0x493C28607A73B9B1),
    (0x63D052903B2D0F90, 0x410E84C22390E7DE, 0xFD50F76176FD766F),
    (0x1B3B8446C26A631F, 0xDA3081F2DE49B356, 0xABB6BD030BE29FCB),
    (0x26E65DED64414A16, 0xEE3B64B15C0726E6, 0xE2E02D9238489E0C),
    (0x06ADB8B95448603C, 0xF37C45789B72B719, 0xFF9B9F8205CB3130),
    (0x32F29820AE5EF024, 0x7AB6DD3FB255A042, 0x5B7126512C8F2400),
    (0x81AA734E23FCF768, 0x86B07A019E53E89C, 0xD6E945A7E87497B9),
    (0x43249D8A244D8F1E, 0xE9ABC68CEF170ACB, 0xFE8066E6566C33F3),
    (0xD835DF1B312F1115, 0xF3480413EB25B3A9, 0x0F02E96D5ABD3D70),
    (0x16F9A7E7473207A1, 0xA9EC81E4B8D09D7E, 0x383DED6B05662D82),
    (0xE46631F6CA0AA879, 0xB11E9527D5AC2428, 0x0214211AC56D2FF1),
    (0x06C1B5FC76B053FB, 0x05ED900BCC75BC2B, 0xA8D8284CF832B5CA),
    (0x288486A1B9B7DBDE, 0x61D7BE717EF9C7D1, 0x5B21F15471F1137E),
    (0x2AE195F1ED002D81, 0xE196F859851DDCD7, 0x81B1E3A0A1CE6217),
    (0x17F097D3C2485741, 0xA377E3B06E0CEE82, 0x73F3ED7EB0915F5C),
    (0x3C438BB725A7E900, 0xE38B2CAAFC6BCE4B, 0x1FBFDF572789EF4E),
    (0x8E0F61F31687803F, 0x2387A298BAEEE21A, 0x8DE502E19CD22C64),
];

#[test]
fn openssl_answers(rt: HostRuntime) {
    for (key, plain, cipher) in OPENSSL_ANSWERS {
        assert_eq!(rt; des_encrypt(block(key), block(plain)), block(cipher));
        assert_eq!(rt; des_decrypt(block(key), block(cipher)), block(plain));
    }
}

/// Keys of 8, 16 and 24 bytes as numbers of 64 bits, plain blocks and what OpenSSL 3.0.19 answers. Keys and blocks are the
/// beginnings of digests. Made by:
///
/// for i in $(seq 1 24); do
///     size=$((8 * ((i - 1) % 3 + 1)))
///     case $size in 8) cipher=des-ecb ;; 16) cipher=des-ede-ecb ;; 24) cipher=des-ede3-ecb ;; esac
///     key=$(printf 'triple key %d' $i | openssl dgst -sha256 -r | cut -c 1-$((2 * size)))
///     plain=$(printf 'triple block %d' $i | openssl dgst -sha256 -r | cut -c 1-16)
///     answer=$(printf $plain | xxd -r -p |
///         openssl enc -$cipher -nopad -K $key -provider legacy -provider default | xxd -p)
///     numbers=$(printf ${key^^} | sed 's/.\{16\}/, 0x&/g; s/^, //')
///     echo "(&[$numbers], 0x${plain^^}, 0x${answer^^}),"
/// done
const OPENSSL_TRIPLE_ANSWERS: [(&[u64], u64, u64); 24] = [
    (
        &[0x4B5FDBCB3405AAF3],
        0xD2B43DBFC59832DC,
        0x974D6C903BAB79FC,
    ),
    (
        &[0xA0E7B14B476774AA, 0x33A34F52080CA111],
        0x2D58982F56942791,
        0x368DA4DBDCE81A29,
    ),
    (
        &[0x656F87038867848E, 0x9DC7108A9E35B54E, 0x96798ABD477CC8A6],
        0xE2F5AE940F57E6C0,
        0xF5222C99E2D0737C,
    ),
    (
        &[0xD851281E6DE2D639],
        0x7DE6DE3BC9A1D127,
        0x3B8F72CB0C3A824C,
    ),
    (
        &[0xFD587D92545312AB, 0x86D785F07C399080],
        0xDB16F848451BEE5A,
        0x9EF7610BB54D577F,
    ),
    (
        &[0x157A1B2EE7A2E377, 0x69780D3B11F5DA4F, 0x57ED14C53A500292],
        0x50D46B7086904E20,
        0xDAB805FA9C75ED5D,
    ),
    (
        &[0xD051936163E22ABD],
        0xEDFDAC9A58EB7DE0,
        0x6D9FF3A0B79B1BF3,
    ),
    (
        &[0xA775801A45258964, 0x45ED477B48D3FAC5],
        0x6F1BAA30E19FA16E,
        0x3815A99F234CF1B5,
    ),
    (
        &[0x01220325C0D0A212, 0x2FDBECC2AE62456A, 0x6C167A28C29ED398],
        0xFBA5F121E798465B,
        0x3AF780719AE049B2,
    ),
    (
        &[0x402924B93F4188EC],
        0x0DD1E2B8961514E1,
        0xF83851318A49BC3F,
    ),
    (
        &[0x3EA4F004E1821AFC, 0x1E55B7098B3D9F5C],
        0xA8950E38FE443F69,
        0x0068E9597F4651C3,
    ),
    (
        &[0xC239D07210214FE3, 0x937BB2EAF674AA34, 0xB70BB3E1DC84574C],
        0x5720D3FE78DAE0BB,
        0xB09FE85F294964D6,
    ),
    (
        &[0xC0A14826CEB26A3A],
        0x38D64818D1DC7BFC,
        0x53DF4A016B7EA909,
    ),
    (
        &[0xC7E5CD094F20BAFB, 0x45716D3DAE12BAEB],
        0x69E455395ACAB8F6,
        0x493FE0C1879B0A58,
    ),
    (
        &[0xD140ACA95A97D486, 0xD8C86B01B4C5C8ED, 0xB6F659F2315338C3],
        0x4C7C957D535EC301,
        0x8CA84DE6B943C1B3,
    ),
    (
        &[0xDE2C00726B92950B],
        0x2899430D09ABBB17,
        0xFC2E7C2FA5DE7B4C,
    ),
    (
        &[0x48C99B5BEC900EB1, 0xFD910B8A2E803069],
        0x952E653AD881F0F7,
        0xC48D47116F25CE4B,
    ),
    (
        &[0x031A1D5F2F63223C, 0xDEB1D154FEF30B91, 0xFFE6A19DE72BACAD],
        0x5161014C9D19AE93,
        0x82DD303519854976,
    ),
    (
        &[0xE1A130E26AEA969F],
        0x882D43690623C574,
        0xE6F4F3918D099CEC,
    ),
    (
        &[0xA475334D7BBE6776, 0xDEC81F1493E706C8],
        0x96E0F8907145D32E,
        0xDD17F2A4196B341D,
    ),
    (
        &[0x6684040A92A57603, 0xC2726DBC7405B781, 0x6D828B6B59C46280],
        0x1B5B54E0BC98B015,
        0x1EFC7E0DA0C8BA4A,
    ),
    (
        &[0x4B0ED82ADE29C8A7],
        0x6998AFB656986548,
        0x54EF4CD8FDF723EA,
    ),
    (
        &[0x3D1C88498AEAC2C3, 0x191BB40F45F406CD],
        0xB55D5FAD12CEA6B4,
        0x6DB2B4688817A949,
    ),
    (
        &[0x544D925AFAED7D3B, 0xE051EE31DDC2105A, 0x53002A88D9F6CADF],
        0x302E23B4FC2411C3,
        0x2077FC0DF4C4E70F,
    ),
];

fn key_bytes(alloc: Global, numbers: &[u64]) -> Result<Vec<u8>, AllocError> {
    let mut bytes = Vec::new(alloc);
    for number in numbers {
        bytes.extend_from_slice(&number.to_be_bytes())?;
    }
    Ok(bytes)
}

#[test]
fn openssl_triple_answers(rt: HostRuntime) -> Result<(), std::test::Fail> {
    for (key, plain, cipher) in OPENSSL_TRIPLE_ANSWERS {
        let key = key_bytes(rt.alloc(), key)?;
        let tdea = Tdea::new(&key)?;
        assert_eq!(rt; tdea.encrypt(block(plain)), block(cipher));
        assert_eq!(rt; tdea.decrypt(block(cipher)), block(plain));
    }
    Ok(())
}

#[test]
fn triple_key_lengths(rt: HostRuntime) {
    let bytes = [0x5A; 32];
    for length in [8, 16, 24] {
        assert!(rt; Tdea::new(&bytes[..length]).is_ok(), "{length}");
    }
    for length in [0, 7, 9, 15, 17, 23, 25, 32] {
        assert!(rt; Tdea::new(&bytes[..length]).is_err(), "{length}");
    }
}
