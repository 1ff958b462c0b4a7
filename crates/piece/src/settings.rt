// What a layout is set to when it is opened, and what an opening is handed. Document 01, "Open" and "Domain".
use crate::orientation::Orientation;
use crate::size::Size;

// What a layout keeps of its opening, and every rule of it goes by: the stages, the width of the saw's blade, and the sheet's size.
#[derive(Clone, Copy)]
pub struct Settings {
    pub stages: u8,
    pub blade: u8,
    pub sheet: Size,
}

// The layout's number, its settings, and the way of its first cut.
#[derive(Clone, Copy)]
pub struct Opening {
    pub number: u16,
    pub settings: Settings,
    pub cut: Orientation,
}
