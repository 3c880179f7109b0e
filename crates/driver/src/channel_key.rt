//! The key of a channel.
use std::marker::Model;

/// The key by which a channel is joined. Neither has a space, a comma or a line end.
///
/// A clause sees both texts.
#[derive(Drop)]
pub struct ChannelKey {
    pub channel: Vec<u8>,
    pub key: Vec<u8>,
}

impl Model for ChannelKey {
    ghost use Rattle.driver.specs.Keys.{KeyOf};

    ghost Value = { KeyOf };

    ghost view = { λ k. record { channel = k.channel.items; key = k.key.items } };
}
