//! Worked examples of the definitions: the `ensures` of each function is a fact that they compute to.

ghost use Rattle.std.specs.Prelude.{◌≡◌, ◌-◌, ◌^◌, ◌∷◌, [], map, drop};
ghost use Rattle.corr_model.specs.Lists.{numbers};
ghost use Rattle.corr_model.specs.Visibilities.{signed};
ghost use Rattle.ant_sim.specs.Noise.{half, key, mixed, noise, samples};
ghost use Rattle.ant_sim.specs.Fates.{order, order_by, pieces_from, words};
ghost use Rattle.ant_sim.specs.Simulated.{fate_key, heap_at, simulated};
ghost use Rattle.ant_sim.specs.Examples.{doubled, first_packet, pieces_plan, second_packet, sent_as, small_plan, stop_behind_two};

/// A half is rounded down: of each signed byte, twice the half and the last bit are the byte. The
/// sum of two halves is from -128 to 126.
pub fn halves_of_bytes()
    ensures halves { map doubled (numbers 0 256) ≡ map signed (numbers 0 256) }
    ensures least { mixed (128, 128) ≡ 128 }
    ensures most { mixed (127, 127) ≡ 126 }
    ensures across { mixed (255, 1) ≡ 255 }
{}

/// The generator's words, and a seed that wraps.
pub fn words_of_a_seed()
    ensures words { words 1477776061723855037 3
        ≡ 1985237415132408290 ∷ 2979275885539914483 ∷ 13511426838097143398 ∷ [] }
    ensures key { key (2 ^ 64 - 1) 1 2 ≡ 8589934595 }
    ensures fate_key { fate_key (2 ^ 64 - 1) 0 0 ≡ 0 }
{}

/// The first samples of heap 2 of antenna 1 from seed 7: a half of its own noise, and a half of
/// what all antennas hear.
pub fn samples_of_a_heap()
    ensures own { noise (key 7 1 2) 4 ≡ 70 ∷ 41 ∷ 251 ∷ 128 ∷ [] }
    ensures sky { noise (key 7 64 2) 4 ≡ 180 ∷ 69 ∷ 22 ∷ 168 ∷ [] }
    ensures samples { samples 7 1 2 12 ≡ 253 ∷ 54 ∷ 8 ∷ 148 ∷ 250 ∷ 167 ∷ 213 ∷ 235 ∷ 1 ∷ 25 ∷ 19 ∷ 196 ∷ [] }
{}

/// A piece is lost where the lowest byte of its fate is 0, and sent twice where that is 1.
pub fn fates_of_pieces()
    ensures lost { pieces_from 0 (0 ∷ 256 ∷ 2 ∷ []) ≡ 2 ∷ [] }
    ensures twice { pieces_from 0 (1 ∷ 2 ∷ 257 ∷ []) ≡ 0 ∷ 0 ∷ 1 ∷ 2 ∷ 2 ∷ [] }
    ensures all_lost { order_by (9 ∷ 0 ∷ 0 ∷ []) ≡ [] }
{}

/// A heap is turned round, after losses and repeats, where its fate is a multiple of 8.
pub fn fate_of_a_heap()
    ensures turned { order_by (8 ∷ 2 ∷ 1 ∷ 0 ∷ []) ≡ 1 ∷ 1 ∷ 0 ∷ [] }
    ensures kept { order_by (9 ∷ 2 ∷ 1 ∷ 0 ∷ []) ≡ 0 ∷ 1 ∷ 1 ∷ [] }
{}

/// From seed 196 the last piece of heap 2 is lost; from seed 5 the heap 0 is turned round, and two
/// pieces of heap 1 are sent twice.
pub fn orders_of_heaps()
    ensures lost { order (fate_key 196 0 2) 4 ≡ 0 ∷ 1 ∷ 2 ∷ [] }
    ensures turned { order (fate_key 5 0 0) 4 ≡ 3 ∷ 2 ∷ 1 ∷ 0 ∷ [] }
    ensures twice { order (fate_key 5 0 1) 4 ≡ 0 ∷ 0 ∷ 1 ∷ 1 ∷ 2 ∷ 3 ∷ [] }
{}

/// From seed 5 heaps 0 and 1 change places, and from seed 196 they do not. From seed 1 heaps 2 and
/// 3 do, but heap 2 does not where it is the last.
pub fn heaps_that_change_places()
    ensures pair { map (heap_at 5 0 3) (numbers 0 3) ≡ 1 ∷ 0 ∷ 2 ∷ [] }
    ensures kept { map (heap_at 196 0 3) (numbers 0 3) ≡ 0 ∷ 1 ∷ 2 ∷ [] }
    ensures later { map (heap_at 1 0 4) (numbers 0 4) ≡ 0 ∷ 1 ∷ 3 ∷ 2 ∷ [] }
    ensures alone { map (heap_at 1 0 3) (numbers 0 3) ≡ 0 ∷ 1 ∷ 2 ∷ [] }
{}

/// All packets of a list in order, each by its heap counter and its piece: the descriptors in five
/// pieces, the heaps, and the stop packet.
pub fn packets_in_order()
    ensures { map sent_as (simulated pieces_plan 5 0)
        ≡ (1, 0) ∷ (1, 1) ∷ (1, 2) ∷ (1, 3) ∷ (1, 4)
        ∷ (3, 0) ∷ (3, 0) ∷ (3, 1) ∷ (3, 1) ∷ (3, 2) ∷ (3, 3)
        ∷ (2, 3) ∷ (2, 2) ∷ (2, 1) ∷ (2, 0)
        ∷ (4, 0) ∷ (4, 1) ∷ (4, 2) ∷ (4, 3)
        ∷ (5, 0) ∷ [] }
{}

/// The heaps and the stop packet of a small list, byte for byte: heap 1, whose packet is sent twice,
/// before heap 0.
pub fn bytes_of_a_small_list()
    ensures { drop 1 (simulated small_plan 5 0)
        ≡ second_packet ∷ second_packet ∷ first_packet ∷ stop_behind_two ∷ [] }
{}
