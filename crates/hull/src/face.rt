// A face of a hull, and a weight on it.

// A face, by the direction in which it looks: entries -1, 0 and 1. No ghost field says so, since the rule of weights adds faces up.
#[derive(Clone, Copy)]
pub struct Face {
    pub x: i8,
    pub y: i8,
    pub z: i8,
}

// A weight on a face.
#[derive(Clone, Copy)]
pub struct Weight {
    pub amount: u32,
    pub on: Face,
}

// A weight divided by the weight unit and rounded both ways, on the face at a place of the list of faces.
#[derive(Clone, Copy)]
pub struct FaceWeight {
    pub face: u8,
    pub up: u32,
    pub down: u32,
}
