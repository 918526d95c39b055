//! The codes of the verbs (HDA 1.0a, 7.3.3): three digits go with 8 bits of payload, one digit with 16.

pub(crate) const GET_PARAM: u32 = 0xF00;

pub(crate) const GET_SELECT: u32 = 0xF01;

pub(crate) const SET_SELECT: u32 = 0x701;

pub(crate) const GET_LIST: u32 = 0xF02;

pub(crate) const GET_POWER: u32 = 0xF05;

pub(crate) const SET_POWER: u32 = 0x705;

pub(crate) const GET_STREAM: u32 = 0xF06;

pub(crate) const SET_STREAM: u32 = 0x706;

pub(crate) const GET_PIN: u32 = 0xF07;

pub(crate) const SET_PIN: u32 = 0x707;

pub(crate) const GET_UNSOL: u32 = 0xF08;

pub(crate) const SET_UNSOL: u32 = 0x708;

pub(crate) const GET_SENSE: u32 = 0xF09;

pub(crate) const GET_EAPD: u32 = 0xF0C;

pub(crate) const SET_EAPD: u32 = 0x70C;

pub(crate) const GET_DIGITAL: u32 = 0xF0D;

pub(crate) const SET_DIGITAL: u32 = 0x70D;

pub(crate) const GET_DEFAULT: u32 = 0xF1C;
/// The code for byte 0 of the configuration default; those for bytes 1 to 3 follow.
pub(crate) const SET_DEFAULT: u32 = 0x71C;

pub(crate) const GET_FORMAT: u32 = 0xA;

pub(crate) const SET_FORMAT: u32 = 0x2;

pub(crate) const GET_AMP: u32 = 0xB;

pub(crate) const SET_AMP: u32 = 0x3;
