use super::*;

#[test]
fn known_values_in_any_two_pieces(rt: HostRuntime) {
    let rows: [(&[u8], u32); 3] = [
        (b"123456789", 0xCBF4_3926),
        (b"", 0),
        (&[0; 4], 0x2144_DF1C),
    ];
    for (bytes, want) in rows {
        assert_eq!(rt; crc32(bytes), want);
        for cut in 0..=bytes.len() {
            let (front, back) = bytes.split_at(cut);
            let mut crc = Crc::new();
            crc.update(front);
            crc.update(back);
            assert_eq!(rt; crc.value(), want, "cut at {cut}");
        }
    }
}
