//! Laws of codecs: one word for each octet, prefixes give prefixes, and G.711 words are octets.
ghost use Rattle.g726_codec.specs.Laws.{OneWordAnOctet, WordsFit, PrefixesComeFirst, NothingIsCoded};
ghost use Rattle.g726_codec.specs.Laws.{SpeechIsItsOwnWords, NothingIsKept};
ghost use Rattle.std.specs.Prelude.{ℕ, List};
ghost use Rattle.e1_g711.specs.declared.Law.{Law};
ghost use Rattle.g726_codec.specs.Codec.{Variables};
ghost use Rattle.g726_codec.specs.Kinds.{rate_tables};
ghost use Rattle.g726_codec.specs.declared.CodecKind.{CodecKind};
ghost use Rattle.g726_codec.specs.Laws.{EncodersContinue, DecodersContinue, HistoriesContinue, EachWordFits};

/// There is one word for each octet and one octet for each word.
pub fn words_are_counted()
    ensures { OneWordAnOctet }
{}

/// Each word is below `2^bits`, if the octets are below 256.
#[tactic(auto, using(crate::proofs::Lists::fit))]
pub fn words_fit()
    ensures { WordsFit }
{}

/// A prefix of the octets gives a prefix of the words, and the other way round.
pub fn prefixes_come_first()
    ensures { PrefixesComeFirst }
{}

/// What is coded later continues what was coded before, and each word is below `2^bits`.
pub fn codecs_continue()
    ensures lists { (kind : CodecKind) (law : Law) (s : Variables)
        → EncodersContinue (rate_tables kind) law s }
    ensures histories { (law : Law) (kind : CodecKind) (octets words : List ℕ)
        → HistoriesContinue law kind octets words }
    ensures fit { EachWordFits }
{}

/// A decoder's state after a list of words, and each octet of it, is that after the words before.
pub fn decoders_continue()
    ensures { (kind : CodecKind) (law : Law) (s : Variables)
        → DecodersContinue (rate_tables kind) law s }
{}

/// No octets give no words, and no words give no octets.
pub fn nothing_is_coded()
    ensures { NothingIsCoded }
{}

/// In G.711 the words are the octets, and the codec stays at reset.
pub fn octets_are_words()
    ensures words { SpeechIsItsOwnWords }
    ensures kept { NothingIsKept }
{}
