/// How tiles are kept: their sides, 64 to 1,024 pixels, and how many stay kept between frames, 1 to 65,536.
#[derive(Clone, Copy, Debug, PartialEq, Eq)]
pub struct Policy {
    pub tw: u16,
    pub th: u16,
    pub budget: u32,
}
