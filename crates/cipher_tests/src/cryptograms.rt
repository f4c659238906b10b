//! Application cryptograms, response cryptograms and the codes of script commands.
use app_cryptogram::{AcFields, ac, arpc_one, arpc_two, script_mac};
use triple_des::Key16;

/// Session keys, fields, issuer application data and their cryptograms.
const CRYPTOGRAMS: [(u128, AcFields, &[u8], u64); 4] = [
    (
        0x40f6_4f19_fc57_a625_cd82_bc94_0f7b_c5d0,
        AcFields {
            amount: [0x2a, 0x20, 0x61, 0xd0, 0x59, 0xf4],
            other: [0xf9, 0xc2, 0xf0, 0x77, 0xf3, 0x5d],
            country: [0xe9, 0xb3],
            tvr: [0xd4, 0x8c, 0xfa, 0x75, 0xbe],
            currency: [0x55, 0xde],
            date: [0x2b, 0x1b, 0xfa],
            trade: 0x62,
            number: [0x41, 0x4f, 0xd8, 0x4f],
            aip: [0x67, 0x75],
            counter: [0xf4, 0x58],
        },
        &[],
        0xaaaf_9ede_016a_83e0,
    ),
    (
        0xdf36_c4a1_527f_569c_b3bf_5057_3c94_2444,
        AcFields {
            amount: [0x3f, 0x7a, 0xbf, 0x0e, 0x79, 0x71],
            other: [0x9b, 0x09, 0x2f, 0x29, 0x60, 0xad],
            country: [0xcf, 0xaa],
            tvr: [0xef, 0xae, 0xf4, 0x52, 0xbf],
            currency: [0xbe, 0x1e],
            date: [0x93, 0x52, 0x2f],
            trade: 0x1e,
            number: [0x53, 0x34, 0xc8, 0x70],
            aip: [0x6f, 0xce],
            counter: [0xf5, 0x28],
        },
        &[0xf4, 0x8c, 0x74, 0x5c, 0xdd, 0x16],
        0xea32_e849_f39d_c272,
    ),
    (
        0x1363_e99b_2832_fab5_72d1_a1b2_e115_8935,
        AcFields {
            amount: [0x8f, 0x62, 0xd9, 0x83, 0x84, 0xd8],
            other: [0x6b, 0x15, 0xb0, 0xae, 0xf0, 0x0d],
            country: [0x88, 0xe1],
            tvr: [0x2d, 0x91, 0x7b, 0xfa, 0x18],
            currency: [0xe4, 0x59],
            date: [0xd0, 0x42, 0x7d],
            trade: 0x24,
            number: [0xc6, 0xb5, 0x4c, 0xa5],
            aip: [0x3b, 0x51],
            counter: [0x15, 0x30],
        },
        &[0xd7, 0x25, 0x7b, 0xc8, 0x05, 0x1f, 0x5d],
        0x5d94_f15b_808b_2d8f,
    ),
    (
        0x70a5_6aa4_c8fb_850e_1b9e_778c_c347_750e,
        AcFields {
            amount: [0x4f, 0x5b, 0x60, 0x6d, 0x10, 0x9b],
            other: [0x18, 0xb9, 0x6b, 0xde, 0xde, 0x04],
            country: [0x1d, 0x70],
            tvr: [0xa2, 0xd1, 0x32, 0x56, 0x2c],
            currency: [0xcc, 0x36],
            date: [0xd7, 0xe7, 0x35],
            trade: 0x5a,
            number: [0xc5, 0x95, 0xf5, 0xe2],
            aip: [0xa3, 0xed],
            counter: [0xad, 0x62],
        },
        &[
            0xab, 0xc5, 0xc8, 0x50, 0x84, 0xad, 0xb1, 0x16, 0xfa, 0x69, 0xd8, 0x01, 0x02, 0xa7,
            0x67, 0xdb, 0x1c, 0x95, 0x47, 0xd9, 0x9b, 0x69, 0x9c, 0x9a, 0x9c, 0x15, 0xa8, 0xea,
            0x96, 0x98, 0x3c, 0xcc,
        ],
        0x4ad1_ebd1_6c89_42fd,
    ),
];

/// Session keys, request cryptograms, response codes and response cryptograms.
const RESPONSES: [(u128, u64, u16, u64); 4] = [
    (
        0xca3b_4748_45e4_c085_5d37_bc3e_0652_2e0d,
        0x6982_54bc_d9e0_d4dd,
        0x3531,
        0x870e_a58f_2dd3_dbc4,
    ),
    (
        0xec9a_8a93_4970_d2bc_be0a_3c83_24fe_97f8,
        0xc430_eb72_fe33_6b87,
        0x3531,
        0xb032_cae0_edc3_5007,
    ),
    (
        0xf55d_2c86_5da1_a1a4_7400_e285_0f03_11d2,
        0x1efe_99af_47b7_e807,
        0x3030,
        0xf666_a5d1_e4b0_f457,
    ),
    (
        0x5a86_2dd8_d94d_2cd0_9965_c630_e15f_c3a7,
        0xdbad_7a82_f6b5_0e6f,
        0x3030,
        0x3e53_9ffa_8311_4419,
    ),
];

/// Session keys, request cryptograms, status bytes, further bytes and response cryptograms by method 2.
const RESPONSES_TWO: [(u128, u64, u32, &[u8], u32); 3] = [
    (
        0xca3b_4748_45e4_c085_5d37_bc3e_0652_2e0d,
        0x6982_54bc_d9e0_d4dd,
        0x8080_0000,
        &[],
        0x8385_1d62,
    ),
    (
        0xec9a_8a93_4970_d2bc_be0a_3c83_24fe_97f8,
        0xc430_eb72_fe33_6b87,
        0x80c0_0000,
        &[0x5a],
        0xe07c_2f57,
    ),
    (
        0x5a86_2dd8_d94d_2cd0_9965_c630_e15f_c3a7,
        0xdbad_7a82_f6b5_0e6f,
        0x0000_0000,
        &[1, 2, 3, 4, 5, 6, 7, 8],
        0xfe83_5c21,
    ),
];

/// Session keys, headers, counters, cryptograms, data and the codes over them.
const SCRIPTS: [(u128, u32, u16, u64, &[u8], u64); 4] = [
    (
        0xe23e_583e_8d22_dc79_95de_1b04_22e1_0a35,
        0x6928_e693,
        0x5bd5,
        0x1330_bd71_d72d_8bfb,
        &[],
        0x0418_af4e_2fc3_dc85,
    ),
    (
        0xbdb2_c6c2_77e8_8010_fb95_a0c5_aef4_5541,
        0x0fe8_793c,
        0x4532,
        0x37d2_2897_95bb_24f2,
        &[0x10],
        0xfc0c_90d1_ba8b_a388,
    ),
    (
        0x4649_da0f_4cb6_2440_7969_b182_c196_ba7d,
        0xb16a_ac3d,
        0x3f57,
        0xd225_e16e_36cb_09f8,
        &[0xbb, 0xf5, 0xb5, 0x62, 0x5c, 0x1c],
        0x4387_39e4_8828_5bca,
    ),
    (
        0x9172_ad69_c171_653b_5c0d_9ed0_7d5b_06b1,
        0x8170_adf1,
        0x1391,
        0x797a_80aa_3d7d_35f4,
        &[0x4e, 0xfe, 0x4b, 0x9b, 0x8b, 0x24, 0xfc, 0x6e],
        0x730e_4a68_d246_fbde,
    ),
];

#[test]
fn application_cryptograms(rt: HostRuntime) {
    for (key, fields, iad, wanted) in CRYPTOGRAMS {
        let session = Key16::new(key.to_be_bytes());
        assert_eq!(rt;
            ac(&session, &fields, iad),
            wanted.to_be_bytes(),
            "under {key:032x}"
        );
    }
}

#[test]
fn response_cryptograms(rt: HostRuntime) {
    for (key, arqc, code, wanted) in RESPONSES {
        let session = Key16::new(key.to_be_bytes());
        assert_eq!(rt;
            arpc_one(&session, arqc.to_be_bytes(), code.to_be_bytes()),
            wanted.to_be_bytes(),
            "under {key:032x}"
        );
    }
}

#[test]
fn response_cryptograms_by_method_two(rt: HostRuntime) {
    for (key, arqc, status, further, wanted) in RESPONSES_TWO {
        let session = Key16::new(key.to_be_bytes());
        assert!(rt;
            further.len() <= 8
                && arpc_two(&session, arqc.to_be_bytes(), status.to_be_bytes(), further)
                    == wanted.to_be_bytes(),
            "under {key:032x}"
        );
    }
}

#[test]
fn script_codes(rt: HostRuntime) {
    for (key, header, counter, cryptogram, payload, wanted) in SCRIPTS {
        let session = Key16::new(key.to_be_bytes());
        let code = script_mac(
            &session,
            header.to_be_bytes(),
            counter,
            cryptogram.to_be_bytes(),
            payload,
        );
        assert_eq!(rt; code, wanted.to_be_bytes(), "under {key:032x}");
    }
}
