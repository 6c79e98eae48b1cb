// The rows of DM_RV, a number each as in the catalogue: DGN, first bit, width, unit, mark (1 plain).
pub const COUNT: usize = 12;

pub const ROWS: [u64; COUNT] = [
    0x1FECA_00_02_0_0,
    0x1FECA_02_02_0_0,
    0x1FECA_04_02_0_0,
    0x1FECA_06_02_0_0,
    0x1FECA_08_08_0_1,
    0x1FECA_10_08_0_1,
    0x1FECA_18_08_0_1,
    0x1FECA_20_05_0_0,
    0x1FECA_25_03_0_1,
    0x1FECA_28_07_0_0,
    0x1FECA_30_08_0_0,
    0x1FECA_38_04_0_0,
];
