use stun_types::attribute::TextAttribute;

/// LOCATION: where the sender is. The value is a text, at most 763 bytes of UTF-8.
pub type Location = TextAttribute<0x802F, 763>;
