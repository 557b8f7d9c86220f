//! What the definitions say of known sources, from their bytes on: tokens, tree, rules and meaning. Nothing here is run.
ghost use Rattle.std.specs.Prelude.{ℕ, ℤ, pos, negsuc, List, [], codes};
ghost use Rattle.arc_spec.specs.Correctness.{Ends, Faults};
ghost use Rattle.arc_spec.specs.declared.event.Fault.TheVariants.{Arithmetic, Unrecognized, NilField, FieldClass, Depth};
ghost use Rattle.arc_known.specs.Known.{HasTrace, IsRefused};
ghost use Rattle.arc_known.specs.Programs as program;
ghost use Rattle.arc_known.specs.Programs.{printed};
ghost use Rattle.arc_known.specs.RefusedSources as refused;

/// Numbers are computed and printed as the language's rules say.
pub fn numbers()
    ensures forty_two { HasTrace program.forty_two [] 0 (printed (codes "42")) (Ends (pos 7)) }
    ensures conversions { HasTrace program.conversions [] 0 (printed (codes "14 -3|A%|4294967296\n")) (Ends (pos 20)) }
    ensures tokens { HasTrace program.tokens [] 0 (printed (codes "A42\n")) (Ends (pos 4)) }
    ensures wrapped_sum { HasTrace program.wrapped_sum [] 0 (printed (codes "-2147483648")) (Ends (pos 11)) }
    ensures factorials { HasTrace program.factorials [] 0 (printed (codes "120")) (Ends (pos 1932053504)) }
    ensures updates { HasTrace program.updates [] 0 program.updates_show (Ends (pos 1)) }
{}

/// Operands, scopes, loops and the input.
pub fn statements()
    ensures operands { HasTrace program.operands [] 0 (printed (codes "cba")) (Ends (pos 9506)) }
    ensures scopes { HasTrace program.scopes [] 0 (printed (codes "27b")) (Ends (pos 0)) }
    ensures echo { HasTrace program.echo (codes "hi") 2 (printed (codes "hi")) (Ends (negsuc 1)) }
    ensures loops { HasTrace program.loops [] 5 (printed (codes "023")) (Ends (pos 35)) }
    ensures globals { HasTrace program.globals [] 0 (printed (codes "40")) (Ends (pos 42)) }
    ensures deepest_blocks { HasTrace program.deepest_blocks [] 0 [] (Ends (pos 0)) }
{}

/// Messages to classes, to objects and to nil.
pub fn messages()
    ensures class_methods { HasTrace program.class_methods [] 0 (printed (codes "10 20")) (Ends (pos 0)) }
    ensures nil_receiver { HasTrace program.nil_receiver (codes "xA") 0 program.nil_receiver_shows (Ends (pos 0)) }
    ensures object_methods { HasTrace program.object_methods [] 0 program.object_methods_show (Ends (pos 1)) }
{}

/// When objects end, and what their deallocs do.
pub fn ends_of_objects()
    ensures ends { HasTrace program.ends [] 0 program.ends_show (Ends (pos 0)) }
    ensures early_return { HasTrace program.early_return [] 0 program.early_return_shows (Ends (pos 2)) }
    ensures kept_alive { HasTrace program.kept_alive [] 0 program.kept_alive_shows (Ends (pos 0)) }
    ensures turns_and_temporaries { HasTrace program.turns_and_temporaries [] 2 program.turns_and_temporaries_show (Ends (pos 0)) }
{}

/// Methods that give objects, and methods of init.
pub fn objects_given()
    ensures init_methods { HasTrace program.init_methods [] 0 program.init_methods_show (Ends (pos 0)) }
    ensures families { HasTrace program.objects_given [] 0 program.objects_given_show (Ends (pos 0)) }
{}

/// What stops a program.
pub fn faults()
    ensures division_by_zero { HasTrace program.division_by_zero [] 0 (printed (codes "<-2>")) (Faults Arithmetic) }
    ensures least_quotient { HasTrace program.least_quotient [] 0 (printed (codes "-2147483648")) (Faults Arithmetic) }
    ensures no_method { HasTrace program.no_method [] 0 program.no_method_shows (Faults Unrecognized) }
    ensures field_of_nil { HasTrace program.field_of_nil [] 0 (printed (codes "x")) (Faults NilField) }
    ensures field_of_another_class { HasTrace program.field_of_another_class [] 0 (printed (codes "x")) (Faults FieldClass) }
    ensures endless_calls { HasTrace program.endless_calls [] 0 [] (Faults Depth) }
{}

/// Sources that are refused: the number of the rule, and the position.
pub fn refusals()
    ensures bad_byte { IsRefused refused.bad_byte 1 17 }
    ensures open_comment { IsRefused refused.open_comment 2 19 }
    ensures open_text { IsRefused refused.open_text 3 24 }
    ensures octal { IsRefused refused.octal 4 24 }
    ensures directive { IsRefused refused.directive 5 19 }
    ensures no_semicolon { IsRefused refused.no_semicolon 11 26 }
    ensures no_brace { IsRefused refused.no_brace 11 26 }
    ensures too_deep { IsRefused refused.too_deep 12 215 }
    ensures second_body { IsRefused refused.second_body 21 30 }
    ensures second_global { IsRefused refused.second_global 21 11 }
    ensures unknown_superclass { IsRefused refused.unknown_superclass 22 15 }
    ensures other_result { IsRefused refused.other_result 24 57 }
    ensures no_implementation { IsRefused refused.no_implementation 26 11 }
    ensures hook { IsRefused refused.hook 28 47 }
    ensures no_main { IsRefused refused.no_main 29 0 }
    ensures no_body { IsRefused refused.no_body 30 37 }
    ensures unknown_name { IsRefused refused.unknown_name 41 24 }
    ensures stages { IsRefused refused.stages 21 33 }
    ensures no_method { IsRefused refused.no_method 42 72 }
    ensures object_as_number { IsRefused refused.object_as_number 43 24 }
    ensures number_assigned { IsRefused refused.number_assigned 44 19 }
    ensures object_counted { IsRefused refused.object_counted 44 30 }
    ensures argument_count { IsRefused refused.argument_count 45 51 }
    ensures too_many_parameters { IsRefused refused.too_many_parameters 45 4 }
    ensures format { IsRefused refused.format 46 17 }
    ensures self_assigned { IsRefused refused.self_assigned 47 64 }
    ensures outside_loop { IsRefused refused.outside_loop 48 29 }
    ensures private_field { IsRefused refused.private_field 49 111 }
    ensures unretained { IsRefused refused.unretained 60 24 }
    ensures manual_release { IsRefused refused.manual_release 61 32 }
    ensures dealloc_sent { IsRefused refused.dealloc_sent 62 32 }
    ensures init_of_self { IsRefused refused.init_of_self 63 65 }
    ensures other_class_by_init { IsRefused refused.other_class_by_init 66 76 }
    ensures number_qualified { IsRefused refused.number_qualified 67 51 }
{}
