// Laws of the definitions, each the contract of a function with an empty body.
ghost use Rattle.y4m_stream.specs.Laws.{ReadsOneWay, WrittenIsStream};

/// Bytes have either one fault, or are the stream of one clip.
pub fn bytes_read_one_way()
    ensures { ReadsOneWay }
{}

/// What is written for a clip is a stream of it. This is of clips whose tag is `Jpeg` or whose format is YV12 with eight
/// bits: with another format no tag is written.
pub fn what_is_written_is_a_stream()
    ensures { WrittenIsStream }
{}
