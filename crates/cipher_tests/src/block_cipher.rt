//! DES, triple DES and authentication codes.
use crate::codes::{CODES, MAC_KEY};
use triple_des::{Des, Key16, mac, mac_joined, merged};

/// Keys, blocks and what single DES makes of them.
const SINGLE: [(u64, u64, u64); 24] = [
    (
        0x1334_5779_9bbc_dff1,
        0x0123_4567_89ab_cdef,
        0x85e8_1354_0f0a_b405,
    ),
    (
        0x0123_4567_89ab_cdef,
        0x4e6f_7720_6973_2074,
        0x3fa4_0e8a_984d_4815,
    ),
    (
        0x0e32_9232_ea6d_0d73,
        0x8787_8787_8787_8787,
        0x0000_0000_0000_0000,
    ),
    (
        0x0101_0101_0101_0101,
        0x0123_4567_89ab_cdef,
        0x617b_3a0c_e8f0_7100,
    ),
    (
        0xfefe_fefe_fefe_fefe,
        0x0123_4567_89ab_cdef,
        0x6dce_0dc9_0065_56a3,
    ),
    (
        0xe0e0_e0e0_f1f1_f1f1,
        0x0123_4567_89ab_cdef,
        0xee60_0bc0_6fc9_ef23,
    ),
    (
        0x1f1f_1f1f_0e0e_0e0e,
        0x0123_4567_89ab_cdef,
        0xdb95_8605_f8c8_c606,
    ),
    (
        0x0000_0000_0000_0000,
        0x0000_0000_0000_0000,
        0x8ca6_4de9_c1b1_23a7,
    ),
    (
        0xffff_ffff_ffff_ffff,
        0xffff_ffff_ffff_ffff,
        0x7359_b216_3e4e_dc58,
    ),
    (
        0x3000_0000_0000_0000,
        0x1000_0000_0000_0001,
        0x958e_6e62_7a05_557b,
    ),
    (
        0x7ca1_1045_4a1a_6e57,
        0x01a1_d6d0_3977_6742,
        0x690f_5b0d_9a26_939b,
    ),
    (
        0x0131_d961_9dc1_376e,
        0x5cd5_4ca8_3def_57da,
        0x7a38_9d10_354b_d271,
    ),
    (
        0xf3e3_1029_95a6_7396,
        0x35d0_b07e_41cf_c9bc,
        0x6962_84fc_6ff3_9ded,
    ),
    (
        0xbe68_fc26_7936_b4cb,
        0x83bb_8512_d597_0e5a,
        0xa022_d69e_2c95_a3e0,
    ),
    (
        0xeaad_5c44_456c_afed,
        0xadce_e7dc_2fdf_00fd,
        0x1f0c_e3c7_8713_6e87,
    ),
    (
        0x4514_662a_d78e_ff3b,
        0xf3db_a5cb_3488_9681,
        0xf71a_07c5_786e_276a,
    ),
    (
        0x5aaa_8155_6cb0_6c6d,
        0xc593_0ce7_4ee4_b7dd,
        0x4715_1bb0_929c_85f6,
    ),
    (
        0xdc8c_3404_cb15_a546,
        0xca49_e671_2e34_458a,
        0x0eb1_eff7_f9bc_e086,
    ),
    (
        0x131c_13eb_071f_4285,
        0x5d64_5022_fce1_86a3,
        0xe4e8_092f_665d_ec04,
    ),
    (
        0x891d_0eb4_9f09_e0b0,
        0x9125_8131_b4c9_f151,
        0xd0f2_f151_0afe_edf1,
    ),
    (
        0x34a5_29f7_6007_0099,
        0x0de9_52d6_267e_f15e,
        0xd2f4_2311_724c_4a2f,
    ),
    (
        0xeb99_7d41_99c5_ed8f,
        0x63b1_547c_9a93_526d,
        0x55e2_8b9a_2185_efec,
    ),
    (
        0x90e0_da4e_a17a_d27f,
        0x7115_aca9_eda9_55cb,
        0x5284_4755_15a8_d40a,
    ),
    (
        0x521b_29df_1500_f557,
        0x3be9_2098_ecd7_df51,
        0xab59_7bf2_a334_d97a,
    ),
];

/// Keys, blocks and what triple DES makes of them; the halves of the last key are equal.
const DOUBLE: [(u128, u64, u64); 11] = [
    (
        0x5a3e_2c4e_e960_04fe_27b4_fa52_c9ed_d0e0,
        0xb4f7_153b_6062_9be5,
        0xc156_9b30_a7e3_0c85,
    ),
    (
        0x2633_4313_9706_eca4_586e_87d8_9cd5_6495,
        0x10a7_ce2c_b216_3592,
        0x974e_7c55_f02b_e076,
    ),
    (
        0xfaf4_ba3d_c40e_5f1b_6a62_8df5_5226_2734,
        0x2af3_1dbb_8fab_abf8,
        0x96a6_e3ed_74b8_8141,
    ),
    (
        0x50fc_afdf_45e1_0e57_d53a_1c15_fe0a_46bc,
        0xa9dc_b0f1_b886_e59c,
        0x1c1c_495c_7d4d_3333,
    ),
    (
        0x3329_36fb_b0a3_7d7c_1588_fe74_fbfc_dd2c,
        0xe86d_010f_8eef_2e9a,
        0x2587_fd7b_536b_78b6,
    ),
    (
        0xb622_ec60_449c_65eb_deae_05fa_ad8b_e631,
        0x4ec8_914a_06ea_574b,
        0xf51d_34bb_9550_26e4,
    ),
    (
        0xf117_906e_43db_be2c_ca25_b336_01c3_ce17,
        0x1264_7182_8313_9aee,
        0xb818_aaae_ddd0_877f,
    ),
    (
        0xb3fe_7586_1f76_de8c_257f_56dc_6b94_16f8,
        0x88c1_2b55_8fa1_92b3,
        0x491e_5eb8_2276_b3a2,
    ),
    (
        0x3811_4175_0001_4f6f_19e9_0384_0085_7d54,
        0x90b9_9295_6653_3afd,
        0xc656_6cab_a035_4450,
    ),
    (
        0xa09e_ff6d_e6b2_f461_6db0_f18d_d518_75c5,
        0x1190_b07b_1aaa_2e78,
        0xe6cd_0512_3b1e_0217,
    ),
    (
        0x7097_089e_630b_087d_7097_089e_630b_087d,
        0x0421_25e3_de45_e8b3,
        0x5edf_655b_c989_3918,
    ),
];

/// The copy of a key that has one of the keys of single DES in both halves does what single DES does.
#[test]
fn single_des_meets_its_vectors(rt: HostRuntime) {
    for (key, block, wanted) in SINGLE {
        let des = Des::new(key.to_be_bytes());
        let twice = u128::from(key) << 64 | u128::from(key);
        let copied = Key16::new(twice.to_be_bytes()).copy();
        let (block, wanted) = (block.to_be_bytes(), wanted.to_be_bytes());
        assert!(rt;
            des.encipher(block) == wanted
                && des.decipher(wanted) == block
                && copied.decipher(wanted) == block,
            "under {key:016x}"
        );
    }
}

/// What P makes of the bits of a box, read off the standard's tables by hand: S1 gives 14 for 0, which P
/// takes to the places 9, 17 and 23; S8 gives 11 for 63, which it takes to 5, 15 and 21.
#[test]
fn boxes_by_hand(rt: HostRuntime) {
    assert_eq!(rt; (merged(0, 0), merged(7, 63)), (0x0080_8200, 0x0802_0800));
}

#[test]
fn triple_des_meets_its_vectors(rt: HostRuntime) {
    for (bytes, block, wanted) in DOUBLE {
        let key = Key16::new(bytes.to_be_bytes());
        let (block, wanted) = (block.to_be_bytes(), wanted.to_be_bytes());
        assert!(rt;
            key.bytes() == bytes.to_be_bytes()
                && key.encipher(block) == wanted
                && key.copy().decipher(wanted) == block,
            "under {bytes:032x}"
        );
    }
}

/// Whether the text has this code, also where it is handed over in two parts, wherever it is cut.
fn has_code(key: &Key16, text: &[u8], code: [u8; 8]) -> bool {
    for cut in 0..=text.len() {
        let (head, tail) = text.split_at(cut);
        if mac_joined(key, head, tail) != code {
            return false;
        }
    }
    mac(key, text) == code
}

#[test]
fn codes_of_every_length(rt: HostRuntime) {
    let key = Key16::new(MAC_KEY.to_be_bytes());
    for (text, wanted) in CODES {
        assert!(rt; has_code(&key, text, wanted.to_be_bytes()), "{text:?}");
    }
}
