// How large a plan and its fields may be, each limit said once.
ghost use Rattle.std.specs.Prelude.{◌≡◌};
ghost use Rattle.plan.specs.Limits.{image_in_range, mailbox_in_range};

// The most stations that a plan, or a rack, holds.
pub const MAX_STATIONS: usize = 32;

pub const MIN_IMAGE_BYTES: u32 = 1;

pub const MAX_IMAGE_BYTES: u32 = 1024;

pub const MAX_WINDOW_BITS: u32 = 512;

pub const MIN_MAILBOX_BYTES: u32 = 16;

pub const MAX_MAILBOX_BYTES: u32 = 128;

pub(crate) fn image_in_range(bytes: u32) -> bool
    ensures { result ≡ image_in_range bytes }
{
    (MIN_IMAGE_BYTES..=MAX_IMAGE_BYTES).contains(&bytes)
}

// No mailbox has length 0.
pub(crate) fn mailbox_in_range(bytes: u32) -> bool
    ensures { result ≡ mailbox_in_range bytes }
{
    bytes == 0 || (MIN_MAILBOX_BYTES..=MAX_MAILBOX_BYTES).contains(&bytes)
}
