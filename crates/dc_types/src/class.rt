//! Classes of records and questions.
ghost use Rattle.std.specs.Prelude.{◌≡◌};
ghost use Rattle.dc_model.specs.Message.{class_in, class_any};

/// The internet.
pub const IN: u16 = 1;

/// A request for any class.
pub const ANY: u16 = 255;

/// These are the numbers that the definitions have.
pub fn numbers()
    ensures internet { IN ≡ class_in }
    ensures any { ANY ≡ class_any }
{}
