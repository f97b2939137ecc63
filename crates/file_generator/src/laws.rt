//! Laws of generated files. The function does nothing: its contract states the laws.

ghost use Rattle.file_generator.specs.Laws.{FilesHavePayloads, PayloadsAreShort};

/// The transactions of a generated file are its payloads, each of fewer than 2,048 bytes, and it ends with its
/// closing byte.
pub fn file_laws()
    ensures entries { FilesHavePayloads }
    ensures short { PayloadsAreShort }
{}
