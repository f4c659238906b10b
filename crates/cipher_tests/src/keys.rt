//! Master keys, session keys and the hashes behind them.
use card_keys::{decimalise, master_key, session_ac, session_script};
use emv_dict::Digits;
use sha1::Sha1;
use triple_des::Key16;

/// Issuer master keys, account numbers, sequence numbers and master keys. OpenSSL did each SHA-1 and each
/// DES of those from 99.. on (tools/make-key-vectors).
const MASTERS: [(u128, &str, u8, u128); 14] = [
    (
        0xa84c_7a63_c467_21a0_7f5d_05fc_d16b_ce50,
        "4848247654283",
        0x99,
        0x8cc8_4f01_9892_f216_e340_3b79_76a8_e5fe,
    ),
    (
        0x2701_4e34_e2b1_0e0e_fd08_59a0_367d_b068,
        "54110254064992",
        0x01,
        0x4ad3_0e40_67b9_b0fd_d9cb_2ce9_8607_da43,
    ),
    (
        0xb2d1_e021_8833_47bc_3c88_a374_e255_06ce,
        "649769987522366",
        0x99,
        0x49bc_efec_efc7_19b5_3dd0_19f7_0438_4651,
    ),
    (
        0x8b78_7ff4_1a3f_6d8d_df6b_207a_031d_c36f,
        "3945783986583773",
        0x42,
        0xae40_5e6d_fed6_32fd_4fcd_c783_df6e_b5df,
    ),
    (
        0xbed8_8c4d_f2ca_89b2_363d_36da_8d99_5046,
        "2278354240377478",
        0x00,
        0x64c7_5286_f13e_b0f2_bc31_d0fd_6746_ba1c,
    ),
    (
        0x3dc9_dbcb_ab52_1e25_9393_4c4f_39fd_b0aa,
        "7163002167769803",
        0x00,
        0xe61a_a246_073d_c8b5_197f_7a6d_52c8_c19b,
    ),
    (
        0x0123_4567_89ab_cdef_fedc_ba98_7654_3210,
        "4761739001010010",
        0x01,
        0x2f02_c8b0_e9cb_c7b0_5b51_67f7_a1cd_e6e5,
    ),
    (
        0x0123_4567_89ab_cdef_fedc_ba98_7654_3210,
        "9999999999999999",
        0x99,
        0x8a83_a868_70d6_a7ce_e923_5da7_b3f1_ef16,
    ),
    (
        0x0123_4567_89ab_cdef_fedc_ba98_7654_3210,
        "47617390010140078",
        0x00,
        0x76ef_670e_f2ab_38f8_3e5e_adb3_46cb_1fb6,
    ),
    (
        0x0123_4567_89ab_cdef_fedc_ba98_7654_3210,
        "54133300893158728",
        0x73,
        0x2cd0_7ac2_1508_529e_1ab6_cbef_4acb_4aae,
    ),
    (
        0x0123_4567_89ab_cdef_fedc_ba98_7654_3210,
        "476173900101001242",
        0x01,
        0x318c_b946_0862_2a86_9dc8_4aef_b5c4_f4c4,
    ),
    (
        0x0123_4567_89ab_cdef_fedc_ba98_7654_3210,
        "999999999999999999",
        0x42,
        0x9d32_1a6d_e567_b652_4cae_d3ef_5e0e_b361,
    ),
    (
        0x0123_4567_89ab_cdef_fedc_ba98_7654_3210,
        "4761739001010010123",
        0x01,
        0x31e9_86a1_890d_d964_6d1f_40d3_7f31_343e,
    ),
    (
        0x0123_4567_89ab_cdef_fedc_ba98_7654_3210,
        "5413330089985715415",
        0x05,
        0xfb46_2a46_5ec7_0864_e0cb_0816_2634_8cb6,
    ),
];

/// Master keys, counters and session keys.
const SESSIONS: [(u128, u16, u128); 5] = [
    (
        0xebd4_e9bb_76ed_4084_4155_d384_f23b_1c15,
        0x0000,
        0x310f_2435_2100_e1ea_6e9e_51a6_63c6_ea6c,
    ),
    (
        0xc3ad_63b2_9718_79b3_1295_7cff_3f01_6de2,
        0x0001,
        0xbaf7_5de1_40d0_bb98_458e_c7be_0d28_fd8d,
    ),
    (
        0xb0a7_0792_4cfb_937c_2c51_8a6a_fe7b_9d4d,
        0x000b,
        0x5226_e64a_beee_f05c_6b48_6306_bf6e_2ae4,
    ),
    (
        0x0684_ad90_51e2_0884_58d8_956c_c3a1_0b20,
        0x0100,
        0xff46_7201_26a6_9564_0779_bcbc_e6fa_0cb5,
    ),
    (
        0xf973_d1ad_d34a_acac_977a_f64e_9944_f49e,
        0xffff,
        0xf886_6602_dba9_724b_da76_8189_e77a_acf7,
    ),
];

/// Master keys, first cryptograms and session keys for scripts.
const SCRIPTS: [(u128, u64, u128); 4] = [
    (
        0x32fe_b847_a7fb_d7db_f644_d3a3_b1ef_390e,
        0xdaea_98ae_82cd_a1b1,
        0x5c74_683c_3e28_7be5_3d9d_085e_7bb9_691a,
    ),
    (
        0xfb54_4ac6_3802_885c_e96f_a18e_7e76_f1b7,
        0x2ddd_b9f3_1ac0_de2c,
        0xd56b_0535_0a40_3b45_811b_b42d_18a4_ce5d,
    ),
    (
        0x466f_b144_14d8_b681_caed_5130_e74d_f627,
        0x4f9d_d377_aef9_30f4,
        0xcc5f_dc41_7645_70cf_60ed_4729_1e6f_6f41,
    ),
    (
        0x8990_3aed_8d7a_891e_7a12_6434_0e67_334a,
        0x74a1_5fee_657a_67e2,
        0x0a1a_7035_2bf2_1ae7_5a36_3aee_4abe_a01f,
    ),
];

#[test]
fn master_keys(rt: HostRuntime) {
    for (issuer, pan, sequence, wanted) in MASTERS {
        let mut digits = Digits::empty();
        for character in pan.as_bytes() {
            if digits.len() < 19 && character.is_ascii_digit() {
                digits.push(*character - b'0');
            }
        }
        let master = master_key(&Key16::new(issuer.to_be_bytes()), &digits, sequence);
        assert_eq!(rt; master.bytes(), wanted.to_be_bytes(), "for {pan}");
    }
}

/// Hashes and their sixteen decimal digits: that of "abc", bytes of one letter, and A to F six times, with four
/// decimal digits behind them.
const HASHES: [([u8; 20], u64); 4] = [
    (
        [
            0xa9, 0x99, 0x3e, 0x36, 0x47, 0x06, 0x81, 0x6a, 0xba, 0x3e, 0x25, 0x71, 0x78, 0x50,
            0xc2, 0x6c, 0x9c, 0xd0, 0xd8, 0x9d,
        ],
        0x9993_3647_0681_6325,
    ),
    ([0xaa; 20], 0x0000_0000_0000_0000),
    ([0xff; 20], 0x5555_5555_5555_5555),
    (
        [
            0xab, 0xcd, 0xef, 0xab, 0xcd, 0xef, 0xab, 0xcd, 0xef, 0xab, 0xcd, 0xef, 0xab, 0xcd,
            0xef, 0xab, 0xcd, 0xef, 0x12, 0x34,
        ],
        0x1234_0123_4501_2345,
    ),
];

#[test]
fn hashes_are_made_decimal(rt: HostRuntime) {
    for (hash, wanted) in HASHES {
        assert_eq!(rt; decimalise(hash), wanted.to_be_bytes(), "{wanted:x}");
    }
}

/// The messages of one and of two blocks whose hashes FIPS 180-4 gives.
#[test]
fn hashes_are_those_of_the_standard(rt: HostRuntime) {
    let long = b"abcdbcdecdefdefgefghfghighijhijkijkljklmklmnlmnomnopnopq";
    let hash = [
        0x84, 0x98, 0x3e, 0x44, 0x1c, 0x3b, 0xd2, 0x6e, 0xba, 0xae, 0x4a, 0xa1, 0xf9, 0x51, 0x29,
        0xe5, 0xe5, 0x46, 0x70, 0xf1,
    ];
    assert!(rt; Sha1::digest(b"abc") == HASHES[0].0 && Sha1::digest(long) == hash);
}

#[test]
fn session_keys(rt: HostRuntime) {
    for (master, counter, wanted) in SESSIONS {
        let session = session_ac(&Key16::new(master.to_be_bytes()), counter);
        assert_eq!(rt; session.bytes(), wanted.to_be_bytes(), "at {counter}");
    }
    for (master, cryptogram, wanted) in SCRIPTS {
        let session = session_script(&Key16::new(master.to_be_bytes()), cryptogram.to_be_bytes());
        assert_eq!(rt;
            session.bytes(),
            wanted.to_be_bytes(),
            "at {cryptogram:016x}"
        );
    }
}
