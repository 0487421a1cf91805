//! Worked examples of single packets.

ghost use Rattle.std.specs.Prelude.{◌≡◌, ℕ, List, [], ◌∷◌, ◌++◌, length, take, Some, None};
ghost use Rattle.corr_model.specs.declared.pointer.Refusal.TheVariants.{Short, Magic, Version, Flavour, Pointers, NoCounter, NoOffset, NoLength, Length, PastHeap};
ghost use Rattle.corr_model.specs.declared.verdict.Verdict.TheVariants.{Used};
ghost use Rattle.corr_model.specs.Packets.{packet_in, pointer_of, refusal_of};
ghost use Rattle.corr_model.specs.Descriptors.{immediate, addressed, word_of};
ghost use Rattle.corr_model.specs.Windows.{heard};
ghost use Rattle.corr_model.specs.Examples.{small_plan, example_packet, first_packet, first_samples, with_byte, with_bytes, without_pointer, ten_refused, counted_twice, verdicts};
ghost use Rattle.corr_model.specs.ExamplesOutput.{first_packet_bytes};

/// The first packet of 'two antennas, one heap lost' has these 68 bytes.
pub fn first_packet_is_written()
    ensures bytes { first_packet ≡ first_packet_bytes }
    ensures size { length first_packet ≡ 68 }
{}

/// It is read as counter 1, size 4, offset 0, three pointers and four bytes.
pub fn first_packet_is_read()
    ensures accepted { refusal_of first_packet_bytes ≡ None }
    ensures said { packet_in first_packet_bytes ≡ Some (record {
      counter = 1;
      size = Some 4;
      offset = 0;
      pointers = immediate 0x1600 0 ∷ immediate 0x4101 0 ∷ addressed 0x4300 0 ∷ [];
      payload = first_samples;
    }) }
{}

/// A pointer has a bit of mode, fifteen of id and 48 of value, the greatest bytes first.
pub fn words_of_pointers()
    ensures immediate { pointer_of (0x96 ∷ 0x00 ∷ 1 ∷ 2 ∷ 3 ∷ 4 ∷ 5 ∷ 6 ∷ [])
        ≡ immediate 0x1600 0x010203040506 }
    ensures addressed { pointer_of (0x7f ∷ 0xff ∷ 1 ∷ 2 ∷ 3 ∷ 4 ∷ 5 ∷ 6 ∷ [])
        ≡ addressed 0x7fff 0x010203040506 }
    ensures null { pointer_of (0x80 ∷ 0x00 ∷ 0 ∷ 0 ∷ 0 ∷ 0 ∷ 0 ∷ 5 ∷ []) ≡ immediate 0 5 }
    ensures written { word_of (immediate 0x1600 0x010203040506)
        ≡ 0x96 ∷ 0x00 ∷ 1 ∷ 2 ∷ 3 ∷ 4 ∷ 5 ∷ 6 ∷ [] }
{}

/// The first packet changed in ten ways, and the refusal that each brings.
pub fn ten_refusals()
    ensures short { refusal_of (take 7 first_packet) ≡ Some Short }
    ensures magic { refusal_of (with_byte 0 0x54 first_packet) ≡ Some Magic }
    ensures version { refusal_of (with_byte 1 3 first_packet) ≡ Some Version }
    ensures flavour { refusal_of (with_bytes 2 (4 ∷ 4 ∷ []) first_packet) ≡ Some Flavour }
    ensures pointers { refusal_of (with_byte 7 8 first_packet) ≡ Some Pointers }
    ensures no_counter { refusal_of (without_pointer 0 first_packet) ≡ Some NoCounter }
    ensures no_offset { refusal_of (without_pointer 2 first_packet) ≡ Some NoOffset }
    ensures no_length { refusal_of (without_pointer 3 first_packet) ≡ Some NoLength }
    ensures one_byte_more { refusal_of (first_packet ++ 0 ∷ []) ≡ Some (Length 4 5) }
    ensures past_heap { refusal_of (with_byte 23 3 first_packet) ≡ Some PastHeap }
{}

/// All ten and then the first packet in one stream: one packet is heard, and its heap is used.
pub fn ten_refusals_and_a_packet()
    ensures heard { length (heard small_plan (ten_refused ++ first_packet ∷ [])) ≡ 1 }
    ensures used { verdicts small_plan 0 (ten_refused ++ first_packet ∷ []) ≡ Used 0 0 ∷ [] }
{}

/// Where a special pointer stands twice the later one counts; an addressed one does not, and
/// neither that nor a null pointer is of the heap.
pub fn later_special_pointer_counts()
    ensures { packet_in counted_twice
        ≡ Some (record { counter = 9; size = Some 1; offset = 0; pointers = []; payload = 5 ∷ [] }) }
{}

/// The two reserved bytes of the header are ignored, and an end at exactly the size is accepted.
pub fn reserved_bytes_are_ignored()
    ensures reserved { packet_in (with_bytes 4 (1 ∷ 2 ∷ []) first_packet) ≡ packet_in first_packet }
    ensures nothing_left { refusal_of (example_packet 1 (Some 4) 4 [] []) ≡ None }
    ensures no_size { refusal_of (example_packet 1 None 4 [] (1 ∷ [])) ≡ None }
    ensures past_the_size { refusal_of (example_packet 1 (Some 4) 3 [] (1 ∷ 2 ∷ [])) ≡ Some PastHeap }
{}

/// Where several refusals apply, the first in their order counts.
pub fn first_refusal_counts()
    ensures magic { refusal_of (0 ∷ 0 ∷ 0 ∷ 0 ∷ 0 ∷ 0 ∷ 0 ∷ 9 ∷ []) ≡ Some Magic }
    ensures version { refusal_of (0x53 ∷ 0 ∷ 0 ∷ 0 ∷ 0 ∷ 0 ∷ 0 ∷ 9 ∷ []) ≡ Some Version }
    ensures first_width { refusal_of (0x53 ∷ 4 ∷ 0 ∷ 6 ∷ 0 ∷ 0 ∷ 0 ∷ 9 ∷ []) ≡ Some Flavour }
    ensures second_width { refusal_of (0x53 ∷ 4 ∷ 2 ∷ 0 ∷ 0 ∷ 0 ∷ 0 ∷ 9 ∷ []) ≡ Some Flavour }
    ensures pointers { refusal_of (0x53 ∷ 4 ∷ 2 ∷ 6 ∷ 0 ∷ 0 ∷ 0 ∷ 9 ∷ []) ≡ Some Pointers }
    ensures counter { refusal_of (0x53 ∷ 4 ∷ 2 ∷ 6 ∷ 0 ∷ 0 ∷ 0 ∷ 0 ∷ []) ≡ Some NoCounter }
    ensures offset { refusal_of (without_pointer 2 (without_pointer 3 first_packet)) ≡ Some NoOffset }
    ensures length { refusal_of (with_byte 23 3 first_packet ++ 0 ∷ []) ≡ Some (Length 4 5) }
{}
